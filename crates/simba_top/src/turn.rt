ghost use Rattle.std.specs.Prelude.{◌≡◌, ◌≢◌, ◌⊎◌, ◌+◌, ◌<◌, ◌≤◌, ◌++◌, ◌∷◌, [], ℕ, Bool, true, false, List, Option};
ghost use Rattle.std.specs.Prelude.{Some};
ghost use Rattle.std.specs.Prelude.{map, OnOk, OnErr, IfOk, IfErr, IfSome, IfNone, MatchResult, MatchOption, MatchBool};
ghost use Rattle.std.specs.List.{flat_map, AllByRecursion};
ghost use Rattle.std.specs.Io.KnownBytes.{Appends, IsAtEnd};
ghost use Rattle.table_model.specs.declared.event.Event.{Event as AnEvent};
ghost use Rattle.table_model.specs.declared.line.TextLine.{TextLine as ALine};
ghost use Rattle.script_text.specs.Grammar.{Spells};
ghost use Rattle.transcript_text.specs.Text.{text_of, stop_text};
ghost use Rattle.world_tables.specs.Sound.{is_declaration};
ghost use Rattle.world_tables.specs.Turns.{Happening};
ghost use Rattle.world_tables.specs.World.{World as AWorld};
ghost use Rattle.net_steps.specs.Holds.{IsFramedEvent};
ghost use Rattle.fair_laws.specs.Reached.{IsBuilt, IsReached as IsReachedWorld};
ghost use Rattle.gated_tables.specs.Net.{start};
ghost use Rattle.gated_tables.specs.Runs.{net_from};
ghost use Rattle.node_steps.specs.Faults.{all_faults_back};
ghost use Rattle.node_steps.specs.Holds.{IsWorld};
ghost use Rattle.node_steps.specs.Holds as nodes;
ghost use Rattle.node_steps.specs.Rows.{AreRowsBack};
ghost use Rattle.net_steps.specs.Steps.{all_faults, IsUndone};
ghost use Rattle.line_widths.specs.Widths.{HasWidths};
ghost use Rattle.simba_top.specs.declared.output.Output.{Output as AnOutput};
ghost use Rattle.simba_top.specs.declared.output.Output.TheVariants as outputs;
ghost use Rattle.simba_top.specs.Ends.{IsNext, IsRun};
ghost use Rattle.simba_top.specs.Faults.{Led, GoesOver};
ghost use Rattle.stab_io.specs.Faults.{Rose, AppendsFront};
ghost use Rattle.simba_top.specs.Script.{IsWhole};
ghost use Rattle.simba_top.specs.Stands.{IsReady, IsBehind, IsUnderway, Stands, HasLine, Goes, GoesOn, IsCause};
ghost use Rattle.simba_top.specs.Stands.{EndedBy, Stopped, IsDone, IsFinished, CountsReads, CountsPuts, CountsDepots};

use crate::row_names::RowNames;
use crate::run::MOST_LINES;
use crate::stop::Stop;
use disk_trait::{Depot, Disk};
use line_widths::know_line;
use net_steps::World;
use node_steps::Lines;
use row_value::Bytes;
use script_text::{Declared, line_text, parse_line, stop_text};
use stab_io::{Failed, LineReader, Sink, Source};
use std::alloc::{AllocError, Global};
use table_model::{Event, TextLine};

/// A run over a script: what its lines so far have made.
#[derive(Drop)]
pub(crate) struct Run<D: Disk> {
    reader: LineReader,
    names: Declared,
    rows: RowNames,
    pub(crate) world: World<D>,
    // the lines so far
    pub(crate) count: u64,
    // how many lines were told; the count stands still at its type's end
    pub(crate) told: u64,
    pub(crate) alloc: Global,
}

fn whole_text(alloc: Global, line: &TextLine) -> Result<Bytes, AllocError>
    ensures text { IfOk result (λ text. text ≡ text_of line.now ++ 10 ∷ []) }
    ensures widths { OnOk result (HasWidths line.now) }
{
    know_line(line);
    let mut text = line_text(alloc, line)?;
    text.push(b'\n')?;
    Ok(text)
}

fn texts_of(alloc: Global, lines: &Lines) -> Result<Vec<Bytes>, AllocError>
    ensures texts { IfOk result (λ texts. texts.items ≡ map (λ (line : ALine). text_of line ++ 10 ∷ []) lines.now) }
    ensures widths { OnOk result (AllByRecursion HasWidths lines.now) }
{
    let mut texts = Vec::new(alloc);
    for line in lines.as_slice() {
        texts.push(whole_text(alloc, line)?)?;
    }
    Ok(texts)
}

fn put_all<K: Sink>(sink: &mut K, texts: &[Bytes]) -> Result<(), Failed>
    ensures ok { OnOk result (Appends (K.holds sink.old) (K.holds sink.new) (flat_map (λ text. text) texts.now)) }
    ensures err { OnErr result (AppendsFront (K.holds sink.old) (K.holds sink.new)
        (flat_map (λ text. text) texts.now)) }
    ensures counted { MatchResult result (λ _. K.faults sink.new ≡ K.faults sink.old)
        (λ _. Rose (K.faults sink.old) (K.faults sink.new)) }
{
    for text in texts {
        sink.put(text.as_slice())?;
    }
    Ok(())
}

impl<D: Disk + Drop> Run<D> {
    pub(crate) fn new(alloc: Global) -> Run<D>
        ensures ready { IsReady result }
        ensures held { (is_out : ℕ → Bool) → ((k : ℕ) → is_out k ≡ false) → IsUnderway D.state is_out result }
        ensures stands { (input : List ℕ) (is_out : ℕ → Bool) → ((k : ℕ) → is_out k ≡ false)
            → Stands D.state input [] [] result is_out (Some input) }
    {
        Run {
            reader: LineReader::new(alloc),
            names: Declared::new(alloc),
            rows: RowNames::new(alloc),
            world: World::new(alloc),
            count: 0,
            told: 0,
            alloc,
        }
    }

    /// Carries out the lines of the source, to its end.
    pub(crate) fn whole<S: Source, K: Sink, P: Depot<Disk = D>>(
        &mut self,
        source: &mut S,
        sink: &mut K,
        depot: &mut P,
    ) -> Result<(), Stop>
        requires ready { IsReady self.old }
        requires held { IsUnderway D.state (P.state depot.old).is_out self.old }
        ensures end { OnOk result (IsAtEnd (S.left source.new)) }
        ensures few { self.new.count ≤ MOST_LINES }
        ensures done { (input : List ℕ)
            → Stands D.state input [] [] self.old (P.state depot.old).is_out (S.left source.old)
            → OnOk result (IsDone outputs.Transcript (Led D.state self.new.world) input
            (K.holds sink.old) (K.holds sink.new)) }
        ensures finished { (input : List ℕ)
            → Stands D.state input [] [] self.old (P.state depot.old).is_out (S.left source.old)
            → OnOk result (IsFinished D.state input self.new (P.state depot.new).is_out) }
        ensures ends { (input : List ℕ)
            → Stands D.state input [] [] self.old (P.state depot.old).is_out (S.left source.old)
            → IfErr result (λ stop. EndedBy outputs.Transcript (Led D.state self.new.world) stop input self.new.count
            (S.left source.new) (K.holds sink.old) (K.holds sink.new)) }
        ensures held { OnOk result (IsWorld D.state (P.state depot.new).is_out self.new.world.wire.nodes) }
        ensures left { IfErr result (λ stop. stop ≢ Stop.Memory
            → IsWorld D.state (P.state depot.new).is_out self.new.world.wire.nodes) }
        ensures reads { MatchResult result (λ _. S.faults source.new ≡ S.faults source.old)
            (λ stop. CountsReads stop (S.faults source.old) (S.faults source.new)) }
        ensures puts { MatchResult result (λ _. K.faults sink.new ≡ K.faults sink.old)
            (λ stop. CountsPuts stop (K.faults sink.old) (K.faults sink.new)) }
        ensures depots { MatchResult result (λ _. (P.state depot.new).faults ≡ (P.state depot.old).faults)
            (λ stop. CountsDepots stop (P.state depot.old).faults (P.state depot.new).faults) }
    {
        'lines: while self.turn(source, sink, depot)? {}
        Ok(())
    }

    /// Writes the line that says why the run stopped, where it has one. The answer is why the run ends then.
    pub(crate) fn end<K: Sink>(&self, sink: &mut K, stop: Stop) -> Stop
        requires { self.now.count ≤ MOST_LINES }
        ensures ends { (output : AnOutput) (input : List ℕ) (left before : Option (List ℕ))
            → EndedBy output (Led D.state self.now.world) stop input self.now.count left before (K.holds sink.old)
            → Stopped output (Led D.state self.now.world) result input left before (K.holds sink.new) }
        ensures reads { (old new : ℕ) → CountsReads stop old new → CountsReads result old new }
        ensures puts { (old : ℕ) → CountsPuts stop old (K.faults sink.old) → CountsPuts result old (K.faults sink.new) }
        ensures depots { (old new : ℕ) → CountsDepots stop old new → CountsDepots result old new }
    {
        match stop {
            Stop::BadLine(fault) => self.put_stop(sink, 3, fault.code).err().unwrap_or(stop),
            Stop::Limit(limit) => self.put_stop(sink, 7, limit).err().unwrap_or(stop),
            Stop::Sent => self.put_stop(sink, 7, 10).err().unwrap_or(stop),
            Stop::Read | Stop::Put | Stop::Depot | Stop::Memory => stop,
        }
    }

    fn put_stop<K: Sink>(&self, sink: &mut K, status: u8, code: u32) -> Result<(), Stop>
        requires { self.now.count ≤ MOST_LINES }
        ensures ok { OnOk result (Appends (K.holds sink.old) (K.holds sink.new)
            (stop_text status (self.now.count + 1) code ++ 10 ∷ [])) }
        ensures err { IfErr result (λ stop. ((stop ≡ Stop.Memory) × (K.holds sink.new ≡ K.holds sink.old))
            ⊎ ((stop ≡ Stop.Put) × AppendsFront (K.holds sink.old) (K.holds sink.new)
            (stop_text status (self.now.count + 1) code ++ 10 ∷ []))) }
        ensures puts { MatchResult result (λ _. K.faults sink.new ≡ K.faults sink.old)
            (λ stop. CountsPuts stop (K.faults sink.old) (K.faults sink.new)) }
    {
        let mut line = stop_text(self.alloc, status, self.count + 1, code)?;
        line.push(b'\n')?;
        sink.put(line.as_slice())?;
        Ok(())
    }

    // Carries out one line. False at the end.
    fn turn<S: Source, K: Sink, P: Depot<Disk = D>>(
        &mut self,
        source: &mut S,
        sink: &mut K,
        depot: &mut P,
    ) -> Result<bool, Stop>
        requires ready { IsReady self.old }
        requires held { IsUnderway D.state (P.state depot.old).is_out self.old }
        ensures held { OnOk result (IsUnderway D.state (P.state depot.new).is_out self.new) }
        ensures ready { IfOk result (λ more. MatchBool more (IsReady self.new × (self.new.count ≡ self.old.count + 1))
            (IsAtEnd (S.left source.new))) }
        ensures few { self.new.count ≤ MOST_LINES }
        ensures goes { (input : List ℕ) (before : Option (List ℕ))
            → Goes D.state input self.old (P.state depot.old).is_out (S.left source.old) before (K.holds sink.old)
            → IfOk result (λ more. MatchBool more
            (Goes D.state input self.new (P.state depot.new).is_out (S.left source.new) before (K.holds sink.new))
            (IsDone outputs.Transcript (Led D.state self.new.world) input before (K.holds sink.new))) }
        ensures finished { (input : List ℕ) (before : Option (List ℕ))
            → Goes D.state input self.old (P.state depot.old).is_out (S.left source.old) before (K.holds sink.old)
            → IfOk result (λ more. more ≡ false → IsFinished D.state input self.new (P.state depot.new).is_out) }
        ensures ends { (input : List ℕ) (before : Option (List ℕ))
            → Goes D.state input self.old (P.state depot.old).is_out (S.left source.old) before (K.holds sink.old)
            → IfErr result (λ stop. EndedBy outputs.Transcript (Led D.state self.new.world) stop input self.new.count
            (S.left source.new) before (K.holds sink.new)) }
        ensures left { IfErr result (λ stop. stop ≢ Stop.Memory
            → IsWorld D.state (P.state depot.new).is_out self.new.world.wire.nodes) }
        ensures reads { MatchResult result (λ _. S.faults source.new ≡ S.faults source.old)
            (λ stop. CountsReads stop (S.faults source.old) (S.faults source.new)) }
        ensures puts { MatchResult result (λ _. K.faults sink.new ≡ K.faults sink.old)
            (λ stop. CountsPuts stop (K.faults sink.old) (K.faults sink.new)) }
        ensures depots { MatchResult result (λ _. (P.state depot.new).faults ≡ (P.state depot.old).faults)
            (λ stop. CountsDepots stop (P.state depot.old).faults (P.state depot.new).faults) }
    {
        let Some(line) = self.next_line(source)? else {
            return Ok(false);
        };
        let texts = self.event_texts(depot, &line)?;
        put_all(sink, &texts)?;
        Ok(true)
    }

    /// Gives each disk back to the depot. It takes no memory.
    pub(crate) fn close<P: Depot<Disk = D>>(self, depot: &mut P)
        requires { IsWorld D.state (P.state depot.old).is_out self.world.wire.nodes }
        ensures back { (k : ℕ) → (P.state depot.new).is_out k ≡ false }
        ensures told { (w : AWorld) → nodes.Holds D.state w self.world.wire.nodes → IfSome (P.returned depot.new)
            (λ disks. all_faults_back D.state disks w ≡ all_faults D.state self.world) }
        ensures rows { (w : AWorld) → IsReachedWorld w → nodes.Holds D.state w self.world.wire.nodes
            → IfSome (P.returned depot.new) (λ disks. AreRowsBack D.state disks w) }
        ensures faults { (P.state depot.new).faults ≡ (P.state depot.old).faults }
    {
        self.world.close(depot);
    }

    // The next line. None at the end.
    fn next_line<S: Source>(&mut self, source: &mut S) -> Result<Option<Vec<u8>>, Stop>
        requires { IsReady self.old }
        ensures ready { OnOk result (IsReady self.new) }
        ensures few { IfOk result (λ found. IfSome found (λ _. self.new.count < MOST_LINES)) }
        ensures same { self.new ≡ record self.old { reader = self.new.reader } }
        ensures end { IfOk result (λ found. IfNone found (IsAtEnd (S.left source.new))) }
        ensures found { (input : List ℕ) (script : List AnEvent) (told : List ALine) (is_out : ℕ → Bool)
            → Stands D.state input script told self.old is_out (S.left source.old)
            → MatchResult result
            (λ found. MatchOption found (IsWhole input script)
            (λ line. HasLine D.state input script told line.items self.new is_out (S.left source.new)))
            (λ stop. IsCause stop input script self.old.count (S.left source.new)) }
        ensures reads { MatchResult result (λ _. S.faults source.new ≡ S.faults source.old)
            (λ stop. (stop ≢ Stop.Put) × (stop ≢ Stop.Depot)
            × CountsReads stop (S.faults source.old) (S.faults source.new)) }
        ensures sent { IfErr result (λ stop. stop ≢ Stop.Sent) }
    {
        if self.count >= MOST_LINES {
            self.end_due(source)?;
            return Ok(None);
        }
        Ok(self.reader.next_line(source)?)
    }

    // Behind the most lines, where a byte more passes a limit: the end of the source, or the stop.
    fn end_due<S: Source>(&mut self, source: &mut S) -> Result<(), Stop>
        requires ready { IsReady self.old }
        requires most { self.old.count ≡ MOST_LINES }
        ensures ready { OnOk result (IsReady self.new) }
        ensures same { self.new ≡ record self.old { reader = self.new.reader } }
        ensures end { OnOk result (IsAtEnd (S.left source.new)) }
        ensures found { (input : List ℕ) (script : List AnEvent) (told : List ALine) (is_out : ℕ → Bool)
            → Stands D.state input script told self.old is_out (S.left source.old)
            → MatchResult result
            (λ _. IsWhole input script)
            (λ stop. IsCause stop input script self.old.count (S.left source.new)) }
        ensures reads { MatchResult result (λ _. S.faults source.new ≡ S.faults source.old)
            (λ stop. (stop ≢ Stop.Put) × (stop ≢ Stop.Depot)
            × CountsReads stop (S.faults source.old) (S.faults source.new)) }
        ensures sent { IfErr result (λ stop. stop ≢ Stop.Sent) }
    {
        if self.reader.goes_on(source)? {
            return Err(Stop::Limit(2));
        }
        Ok(())
    }

    // Carries out a line: the text of each line that it writes.
    fn event_texts<P: Depot<Disk = D>>(
        &mut self,
        depot: &mut P,
        line: &[u8],
    ) -> Result<Vec<Bytes>, Stop>
        requires ready { IsReady self.old }
        requires few { self.old.count < MOST_LINES }
        requires held { IsUnderway D.state (P.state depot.old).is_out self.old }
        ensures held { OnOk result (IsUnderway D.state (P.state depot.new).is_out self.new) }
        ensures ready { OnOk result (IsReady self.new × (self.new.count ≡ self.old.count + 1)) }
        ensures few { OnErr result (self.new.count ≡ self.old.count) }
        ensures texts { (input : List ℕ) (script : List AnEvent) (told : List ALine) (left : Option (List ℕ))
            → HasLine D.state input script told line.now self.old (P.state depot.old).is_out left
            → MatchResult result
            (λ texts. GoesOn D.state input told self.new (P.state depot.new).is_out left texts.items)
            (λ stop. IsCause stop input script self.old.count left) }
        ensures over { (input : List ℕ) (script : List AnEvent) (told : List ALine) (left : Option (List ℕ))
            → HasLine D.state input script told line.now self.old (P.state depot.old).is_out left
            → IfErr result (λ stop. stop ≡ Stop.Sent → (event : AnEvent)
            × IsNext input script self.old.count event
            × IsRun (GoesOver (Led D.state self.new.world) event) script told) }
        ensures left { (happenings : List Happening)
            → IsBehind D.state happenings self.old.names self.old.world (P.state depot.old).is_out
            → IfErr result (λ stop. stop ≢ Stop.Memory → stop ≢ Stop.Sent → IsUndone D.state
            (net_from start happenings) (P.state depot.new).is_out self.old.world self.new.world) }
        ensures nodes { IfErr result (λ stop. stop ≢ Stop.Memory
            → IsWorld D.state (P.state depot.new).is_out self.new.world.wire.nodes) }
        ensures fault { IfErr result (λ stop. (stop ≢ Stop.Read) × (stop ≢ Stop.Put)) }
        ensures depots { MatchResult result (λ _. (P.state depot.new).faults ≡ (P.state depot.old).faults)
            (λ stop. CountsDepots stop (P.state depot.old).faults (P.state depot.new).faults) }
    {
        match parse_line(self.alloc, line, &self.names)? {
            Some(event) => self.carry_out(depot, &event),
            None => {
                self.count += 1;
                Ok(Vec::new(self.alloc))
            }
        }
    }

    fn carry_out<P: Depot<Disk = D>>(
        &mut self,
        depot: &mut P,
        event: &Event,
    ) -> Result<Vec<Bytes>, Stop>
        requires ready { IsReady self.old }
        requires few { self.old.count < MOST_LINES }
        requires built { IsBuilt event.now }
        requires framed { IsFramedEvent event.now }
        requires early { is_declaration event.now ≡ true → self.old.names.started ≡ false }
        requires held { IsUnderway D.state (P.state depot.old).is_out self.old }
        ensures held { OnOk result (IsUnderway D.state (P.state depot.new).is_out self.new) }
        ensures ready { OnOk result (IsReady self.new × (self.new.count ≡ self.old.count + 1)) }
        ensures few { OnErr result (self.new.count ≡ self.old.count) }
        ensures texts { (input : List ℕ) (script : List AnEvent) (told : List ALine) (line : List ℕ)
            (left : Option (List ℕ))
            → HasLine D.state input script told line self.old (P.state depot.old).is_out left
            → Spells self.old.names line event.now
            → MatchResult result
            (λ texts. GoesOn D.state input told self.new (P.state depot.new).is_out left texts.items)
            (λ stop. IsCause stop input script self.old.count left) }
        ensures over { (input : List ℕ) (script : List AnEvent) (told : List ALine) (line : List ℕ)
            (left : Option (List ℕ))
            → HasLine D.state input script told line self.old (P.state depot.old).is_out left
            → Spells self.old.names line event.now
            → IfErr result (λ stop. stop ≡ Stop.Sent → IsNext input script self.old.count event.now
            × IsRun (GoesOver (Led D.state self.new.world) event.now) script told) }
        ensures left { (happenings : List Happening)
            → IsBehind D.state happenings self.old.names self.old.world (P.state depot.old).is_out
            → IfErr result (λ stop. stop ≢ Stop.Memory → stop ≢ Stop.Sent → IsUndone D.state
            (net_from start happenings) (P.state depot.new).is_out self.old.world self.new.world) }
        ensures nodes { IfErr result (λ stop. stop ≢ Stop.Memory
            → IsWorld D.state (P.state depot.new).is_out self.new.world.wire.nodes) }
        ensures fault { IfErr result (λ stop. (stop ≢ Stop.Read) × (stop ≢ Stop.Put)) }
        ensures depots { MatchResult result (λ _. (P.state depot.new).faults ≡ (P.state depot.old).faults)
            (λ stop. CountsDepots stop (P.state depot.old).faults (P.state depot.new).faults) }
    {
        self.names.add(event)?;
        self.rows.add(event)?;
        let lines = self.world.step(depot, event)?;
        let texts = texts_of(self.alloc, &lines)?;
        self.told = self.told.saturating_add(lines.len() as u64);
        self.count += 1;
        Ok(texts)
    }
}
