ghost use Rattle.std.specs.Prelude.{◌≡◌, ◌<◌};
ghost use Rattle.load_script.specs.Draws.{draw, pick, one_of};

const MULTIPLIER: u64 = 6364136223846793005;

const INCREMENT: u64 = 1442695040888963407;

/// Where numbers are drawn from.
#[derive(Drop)]
pub(crate) struct Draws {
    pub x: u64,
}

impl Draws {
    #[tactic(auto, using(crate::proofs::Drawing::next_is))]
    fn draw(&mut self) -> u64
        ensures made { result ≡ (draw self.old.x).made }
        ensures x { self.new.x ≡ (draw self.old.x).x }
    {
        self.x = self.x.wrapping_mul(MULTIPLIER).wrapping_add(INCREMENT);
        self.x >> 33
    }

    /// A draw, below `most`.
    pub fn pick(&mut self, most: u64) -> u64
        requires { 0 < most }
        ensures made { result ≡ (pick most self.old.x).made }
        ensures x { self.new.x ≡ (pick most self.old.x).x }
        ensures below { result < most }
    {
        self.draw() % most
    }

    /// A draw, from 1 to `most`.
    pub fn one_of(&mut self, most: u8) -> u8
        requires { 0 < most }
        ensures made { result ≡ (one_of most self.old.x).made }
        ensures x { self.new.x ≡ (one_of most self.old.x).x }
    {
        1 + self.pick(u64::from(most)) as u8
    }
}
