ghost use Rattle.std.specs.Prelude.{◌≡◌, ◌≢◌, ◌⊎◌, ◌+◌, ◌-◌, ◌<◌, ◌≤◌, ◌^◌, ℕ, false, List, map, Some, None};
ghost use Rattle.std.specs.Prelude.{Option, IfSome, OnOk, IfErr, MatchResult};
ghost use Rattle.std.specs.String.{string_bytes};
ghost use Rattle.std.specs.Io.KnownBytes.{IsAtEnd};
ghost use Rattle.table_model.specs.declared.event.Event.{Event as AnEvent};
ghost use Rattle.script_text.specs.declared.fault.BadLine.{BadLine as ABadLine};
ghost use Rattle.script_text.specs.Names.{Names};
ghost use Rattle.stab_io.specs.Faults.{Rose, AppendsFront};
ghost use Rattle.simba_top.specs.Script.{IsFront, IsWhole};
ghost use Rattle.simba_top.specs.declared.output.Output.{Output as AnOutput};
ghost use Rattle.simba_top.specs.declared.output.Output.TheVariants as outputs;
ghost use Rattle.simba_top.specs.Outputs.{asked};
ghost use Rattle.simba_top.specs.Ends.{IsBadAt, IsLimitAt, IsCutOff, Tells, TellsAll, TellsStop, TellsOver, IsTextOf};
ghost use Rattle.simba_top.specs.Stops.{status_of};
ghost use Rattle.simba_top.specs.Faults.{IsOnDisks, AnyRun, Led};
ghost use Rattle.simba_top.specs.Stands.{IsDone, IsFinished, EndedBy, Stopped, CountsReads, CountsPuts, CountsDepots};
ghost use Rattle.simba_top.specs.declared.stop.Stop.TheVariants as AStop;
ghost use Rattle.node_steps.specs.Holds.{IsWorld};

use crate::output::{Output, asked};
use crate::quiet::Quiet;
use crate::stop::Stop;
use crate::turn::Run;
use disk_trait::{Depot, Disk};
use stab_io::{Sink, Source};
use std::alloc::Global;

/// The most lines of a script.
pub const MOST_LINES: u64 = 1_048_576;

/// The whole program: reads a script from the source, carries it out on disks of the depot, and writes its transcript
/// to the sink, one `put` for each line, the lines of an event when it ends; or, where a report is asked for, one line
/// of JSON at the end. A disk that fails doesn't end the run.
///
/// Each line of a transcript has the text of one line alone. Where the depot tells its disks, the run is on them
/// (`IsOnDisks`), whatever the status but 2 and 6: of each table that was declared, and made, the disk of rows came
/// back under its number, and whatever a crash may leave of it are the rows of the history that the transcript's lines
/// tell of the table (`told_history`), or of that with the update at work. What a crash leaves while an event is
/// carried out is a clause of `World::step`.
///
/// The answer is the status that the program ends with:
///
/// | status | when |
/// |---|---|
/// | 0 | the script was read to its end |
/// | 2 | the words aren't the one word `run`, nor the one word `report`; nothing is read or written |
/// | 3 | a line is in no grammar; `stop 3 LINE CODE` is written last |
/// | 4 | the source failed |
/// | 5 | the sink failed |
/// | 6 | memory was refused |
/// | 7 | a limit was passed; `stop 7 LINE LIMIT` is written last |
/// | 8 | the depot failed to hand out a disk |
///
/// Limit 10 is of the bytes of all packets: the disks are then those of the run with the event of that line.
pub fn run_simba<S: Source, K: Sink, P: Depot>(
    alloc: Global,
    words: &[String],
    source: &mut S,
    sink: &mut K,
    depot: &mut P,
) -> u8
    // No disk is out.
    requires { (k : ℕ) → (P.state depot.old).is_out k ≡ false }
    // 2: where the words are no command that is built, and memory was enough to read them.
    ensures words { result ≡ 2 → asked (map string_bytes words.now) ≡ None }
    ensures other_words { asked (map string_bytes words.now) ≡ None → (result ≡ 2) ⊎ (result ≡ 6) }
    ensures untouched { asked (map string_bytes words.now) ≡ None
        → (source.new ≡ source.old) × (sink.new ≡ sink.old) × (depot.new ≡ depot.old) }

    // 0: the whole input was read, and what is asked for of its run was written.
    ensures done { (output : AnOutput) → asked (map string_bytes words.now) ≡ Some output
        → result ≡ 0 → IsAtEnd (S.left source.new) × IfSome (S.left source.old) (λ input.
        (script : List AnEvent) × IsWhole input script
        × TellsAll output
        (IsOnDisks P.Disk.state (P.returned depot.new)) script (K.holds sink.old) (K.holds sink.new)) }

    // 3 and 7: the first line that is in no grammar, or passes a limit, ended the run, or whose event sends more bytes
    // than may be sent.
    ensures bad_line { (output : AnOutput) → asked (map string_bytes words.now) ≡ Some output
        → result ≡ 3 → IfSome (S.left source.old) (λ input.
        (script : List AnEvent) × (count : ℕ) × (fault : ABadLine) × IsBadAt input script count fault
        × TellsStop output (IsOnDisks P.Disk.state (P.returned depot.new)) script 3 (count + 1) fault.code
        (K.holds sink.old) (K.holds sink.new)) }
    ensures limit { (output : AnOutput) → asked (map string_bytes words.now) ≡ Some output
        → result ≡ 7 → IfSome (S.left source.old) (λ input.
        ((script : List AnEvent) × (count limit : ℕ) × IsLimitAt input script count limit
        × TellsStop output (IsOnDisks P.Disk.state (P.returned depot.new)) script 7 (count + 1) limit
        (K.holds sink.old) (K.holds sink.new))
        ⊎ TellsOver output
        (IsOnDisks P.Disk.state (P.returned depot.new)) input (K.holds sink.old) (K.holds sink.new)) }

    // 4: the source failed; all lines that it gave whole were carried out.
    ensures read { (output : AnOutput) → asked (map string_bytes words.now) ≡ Some output
        → result ≡ 4 → Rose (S.faults source.old) (S.faults source.new)
        × IfSome (S.left source.old) (λ input. IfSome (S.left source.new) (λ left.
        (script : List AnEvent) × IsCutOff input script left
        × Tells output (IsOnDisks P.Disk.state (P.returned depot.new)) script (K.holds sink.old) (K.holds sink.new))) }

    // 5: the sink failed; what was written is a front of what a run writes.
    ensures write { (output : AnOutput) → asked (map string_bytes words.now) ≡ Some output
        → result ≡ 5 → Rose (K.faults sink.old) (K.faults sink.new)
        × IfSome (S.left source.old) (λ input. (text : List ℕ)
        × IsTextOf output (IsOnDisks P.Disk.state (P.returned depot.new)) input text
        × AppendsFront (K.holds sink.old) (K.holds sink.new) text) }

    // 6: memory was refused; what was written is of the first lines.
    ensures memory { (output : AnOutput) → asked (map string_bytes words.now) ≡ Some output
        → result ≡ 6 → IfSome (S.left source.old) (λ input.
        (script : List AnEvent) × (count : ℕ) × (names : Names) × (rest : List ℕ)
        × IsFront input script count names rest
        × Tells output AnyRun script (K.holds sink.old) (K.holds sink.new)) }

    // 8: the depot failed; what was written is of the first lines.
    ensures depot { (output : AnOutput) → asked (map string_bytes words.now) ≡ Some output
        → result ≡ 8 → ((P.state depot.old).faults < (P.state depot.new).faults)
        × IfSome (S.left source.old) (λ input.
        (script : List AnEvent) × (count : ℕ) × (names : Names) × (rest : List ℕ)
        × IsFront input script count names rest
        × Tells output (IsOnDisks P.Disk.state (P.returned depot.new)) script (K.holds sink.old) (K.holds sink.new)) }

    // Each disk goes back to the depot, unless memory was refused.
    ensures back { result ≢ 6 → (k : ℕ) → (P.state depot.new).is_out k ≡ false }

    // There is no other status, and no other fault.
    ensures statuses { (result ≡ 0) ⊎ ((result ≡ 2) ⊎ ((result ≡ 3) ⊎ ((result ≡ 4) ⊎ ((result ≡ 5) ⊎ ((result ≡ 6)
        ⊎ ((result ≡ 7) ⊎ (result ≡ 8))))))) }
    ensures source_faults { result ≢ 4 → S.faults source.new ≡ S.faults source.old }
    ensures sink_faults { result ≢ 5 → K.faults sink.new ≡ K.faults sink.old }
    ensures depot_faults { result ≢ 8 → (P.state depot.new).faults ≡ (P.state depot.old).faults }

    // Valid input, where no fault came, gives 0 or want of memory, unless it sends more bytes than may be sent.
    ensures complete { (output : AnOutput) → asked (map string_bytes words.now) ≡ Some output
        → IfSome (S.left source.old) (λ input. (script : List AnEvent) → IsWhole input script
        → S.faults source.new ≡ S.faults source.old → S.faults source.old < 2 ^ 64 - 1
        → K.faults sink.new ≡ K.faults sink.old → K.faults sink.old < 2 ^ 64 - 1
        → (P.state depot.new).faults ≡ (P.state depot.old).faults
        → (result ≡ 0) ⊎ ((result ≡ 6) ⊎ ((result ≡ 7)
        × TellsOver output (IsOnDisks P.Disk.state (P.returned depot.new)) input
        (K.holds sink.old) (K.holds sink.new)))) }
{
    match asked(alloc, words) {
        Ok(Some(output)) => status_of(carry_out(alloc, output, source, sink, depot)),
        Ok(None) => 2,
        Err(stop) => status_of(Err(stop)),
    }
}

fn status_of(ended: Result<(), Stop>) -> u8
    ensures { result ≡ status_of ended }
{
    match ended {
        Ok(()) => 0,
        Err(Stop::BadLine(_)) => 3,
        Err(Stop::Read) => 4,
        Err(Stop::Put) => 5,
        Err(Stop::Memory) => 6,
        Err(Stop::Limit(_)) | Err(Stop::Sent) => 7,
        Err(Stop::Depot) => 8,
    }
}

// Carries out the script of the source, writes what is asked for of it, and says why it stopped.
fn carry_out<S: Source, K: Sink, P: Depot>(
    alloc: Global,
    output: Output,
    source: &mut S,
    sink: &mut K,
    depot: &mut P,
) -> Result<(), Stop>
    requires { (k : ℕ) → (P.state depot.old).is_out k ≡ false }
    ensures end { OnOk result (IsAtEnd (S.left source.new)) }
    ensures done { OnOk result (IfSome (S.left source.old)
        (λ input. IsDone output (IsOnDisks P.Disk.state (P.returned depot.new)) input
        (K.holds sink.old) (K.holds sink.new))) }
    ensures stopped { IfErr result (λ stop. IfSome (S.left source.old)
        (λ input. Stopped output (IsOnDisks P.Disk.state (P.returned depot.new)) stop input (S.left source.new)
        (K.holds sink.old) (K.holds sink.new))) }
    ensures back { OnOk result ((k : ℕ) → (P.state depot.new).is_out k ≡ false) }
    ensures back_stopped { IfErr result (λ stop. stop ≢ AStop.Memory
        → (k : ℕ) → (P.state depot.new).is_out k ≡ false) }
    ensures reads { MatchResult result (λ _. S.faults source.new ≡ S.faults source.old)
        (λ stop. CountsReads stop (S.faults source.old) (S.faults source.new)) }
    ensures puts { MatchResult result (λ _. K.faults sink.new ≡ K.faults sink.old)
        (λ stop. CountsPuts stop (K.faults sink.old) (K.faults sink.new)) }
    ensures depots { MatchResult result (λ _. (P.state depot.new).faults ≡ (P.state depot.old).faults)
        (λ stop. CountsDepots stop (P.state depot.old).faults (P.state depot.new).faults) }
{
    match output {
        Output::Transcript => run_whole(alloc, source, sink, depot),
        Output::Report => report_whole(alloc, source, sink, depot),
    }
}

// Carries out the script of the source, writes its transcript, and says why it stopped.
fn run_whole<S: Source, K: Sink, P: Depot>(
    alloc: Global,
    source: &mut S,
    sink: &mut K,
    depot: &mut P,
) -> Result<(), Stop>
    requires { (k : ℕ) → (P.state depot.old).is_out k ≡ false }
    ensures end { OnOk result (IsAtEnd (S.left source.new)) }
    ensures done { OnOk result (IfSome (S.left source.old)
        (λ input. IsDone outputs.Transcript (IsOnDisks P.Disk.state (P.returned depot.new)) input
        (K.holds sink.old) (K.holds sink.new))) }
    ensures stopped { IfErr result (λ stop. IfSome (S.left source.old)
        (λ input. Stopped outputs.Transcript
        (IsOnDisks P.Disk.state (P.returned depot.new)) stop input (S.left source.new)
        (K.holds sink.old) (K.holds sink.new))) }
    ensures back { OnOk result ((k : ℕ) → (P.state depot.new).is_out k ≡ false) }
    ensures back_stopped { IfErr result (λ stop. stop ≢ AStop.Memory
        → (k : ℕ) → (P.state depot.new).is_out k ≡ false) }
    ensures reads { MatchResult result (λ _. S.faults source.new ≡ S.faults source.old)
        (λ stop. CountsReads stop (S.faults source.old) (S.faults source.new)) }
    ensures puts { MatchResult result (λ _. K.faults sink.new ≡ K.faults sink.old)
        (λ stop. CountsPuts stop (K.faults sink.old) (K.faults sink.new)) }
    ensures depots { MatchResult result (λ _. (P.state depot.new).faults ≡ (P.state depot.old).faults)
        (λ stop. CountsDepots stop (P.state depot.old).faults (P.state depot.new).faults) }
{
    let mut run: Run<P::Disk> = Run::new(alloc);
    match run.whole(source, sink, depot) {
        Ok(()) => {
            run.close(depot);
            Ok(())
        }
        Err(stop) => Err(ended(run, sink, depot, stop)),
    }
}

// Carries out the script of the source, writes its report, and says why it stopped.
fn report_whole<S: Source, K: Sink, P: Depot>(
    alloc: Global,
    source: &mut S,
    sink: &mut K,
    depot: &mut P,
) -> Result<(), Stop>
    requires { (k : ℕ) → (P.state depot.old).is_out k ≡ false }
    ensures end { OnOk result (IsAtEnd (S.left source.new)) }
    ensures done { OnOk result (IfSome (S.left source.old)
        (λ input. IsDone outputs.Report (IsOnDisks P.Disk.state (P.returned depot.new)) input
        (K.holds sink.old) (K.holds sink.new))) }
    ensures stopped { IfErr result (λ stop. IfSome (S.left source.old)
        (λ input. Stopped outputs.Report (IsOnDisks P.Disk.state (P.returned depot.new)) stop input (S.left source.new)
        (K.holds sink.old) (K.holds sink.new))) }
    ensures back { OnOk result ((k : ℕ) → (P.state depot.new).is_out k ≡ false) }
    ensures back_stopped { IfErr result (λ stop. stop ≢ AStop.Memory
        → (k : ℕ) → (P.state depot.new).is_out k ≡ false) }
    ensures reads { MatchResult result (λ _. S.faults source.new ≡ S.faults source.old)
        (λ stop. CountsReads stop (S.faults source.old) (S.faults source.new)) }
    ensures puts { MatchResult result (λ _. K.faults sink.new ≡ K.faults sink.old)
        (λ stop. CountsPuts stop (K.faults sink.old) (K.faults sink.new)) }
    ensures depots { MatchResult result (λ _. (P.state depot.new).faults ≡ (P.state depot.old).faults)
        (λ stop. CountsDepots stop (P.state depot.old).faults (P.state depot.new).faults) }
{
    let mut run: Run<P::Disk> = Run::new(alloc);
    match run.whole(source, &mut Quiet, depot) {
        Ok(()) => reported(run, sink, depot),
        Err(stop) => Err(ended(run, sink, depot, stop)),
    }
}

// Gives the disks of a run that came to its end back, and writes its report.
fn reported<K: Sink, D: Disk + Drop, P: Depot<Disk = D>>(
    run: Run<D>,
    sink: &mut K,
    depot: &mut P,
) -> Result<(), Stop>
    requires { IsWorld D.state (P.state depot.old).is_out run.world.wire.nodes }
    ensures done { (input : List ℕ) → IsFinished D.state input run (P.state depot.old).is_out
        → OnOk result (IsDone outputs.Report (IsOnDisks D.state (P.returned depot.new)) input
        (K.holds sink.old) (K.holds sink.new)) }
    ensures stopped { (input : List ℕ) (left : Option (List ℕ))
        → IsFinished D.state input run (P.state depot.old).is_out
        → IfErr result (λ stop. Stopped outputs.Report (IsOnDisks D.state (P.returned depot.new)) stop input left
        (K.holds sink.old) (K.holds sink.new)) }
    ensures back { (k : ℕ) → (P.state depot.new).is_out k ≡ false }
    ensures reads { (faults : ℕ) → IfErr result (λ stop. CountsReads stop faults faults) }
    ensures puts { MatchResult result (λ _. K.faults sink.new ≡ K.faults sink.old)
        (λ stop. CountsPuts stop (K.faults sink.old) (K.faults sink.new)) }
    ensures depots { MatchResult result (λ _. (P.state depot.new).faults ≡ (P.state depot.old).faults)
        (λ stop. CountsDepots stop (P.state depot.old).faults (P.state depot.new).faults) }
{
    let report = run.report();
    run.close(depot);
    sink.put(report?.as_bytes())?;
    Ok(())
}

// Ends a run that stopped: writes the line that says why, where it has one, and gives the disks back.
fn ended<K: Sink, D: Disk + Drop, P: Depot<Disk = D>>(
    run: Run<D>,
    sink: &mut K,
    depot: &mut P,
    stop: Stop,
) -> Stop
    requires few { run.count ≤ MOST_LINES }
    requires held { stop ≢ AStop.Memory → IsWorld D.state (P.state depot.old).is_out run.world.wire.nodes }
    ensures ends { (output : AnOutput) (input : List ℕ) (left before : Option (List ℕ))
        → EndedBy output (Led D.state run.world) stop input run.count left before (K.holds sink.old)
        → Stopped output (IsOnDisks D.state (P.returned depot.new)) result input left before (K.holds sink.new) }
    ensures back { result ≢ AStop.Memory → (k : ℕ) → (P.state depot.new).is_out k ≡ false }
    ensures reads { (old new : ℕ) → CountsReads stop old new → CountsReads result old new }
    ensures puts { (old : ℕ) → CountsPuts stop old (K.faults sink.old) → CountsPuts result old (K.faults sink.new) }
    ensures depots { (old : ℕ) → CountsDepots stop old (P.state depot.old).faults
        → CountsDepots result old (P.state depot.new).faults }
{
    if matches!(stop, Stop::Memory) {
        return Stop::Memory;
    }
    let result = run.end(sink, stop);
    run.close(depot);
    result
}
