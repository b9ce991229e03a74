// How jobs are run.
ghost use Rattle.std.specs.Prelude.{◌≤◌};

/// The most threads that run jobs if no other number is given.
pub const USUAL_THREADS: u64 = 64;

/// How often a job of a strict plan is begun again at most if no other number is given.
pub const USUAL_RETRIES: u64 = 10;

/// How jobs are run.
#[derive(Clone, Copy, Debug)]
pub struct Pace {
    /// How often a call is requested at most.
    pub turns: u64,
    /// How many threads run them at most.
    pub threads: u64,
    /// How often a job is begun again at most after a deadlock has ended it. If no number is given,
    /// it is 10 for the jobs of a strict plan, and no deadlock of other jobs is broken.
    pub retries: Option<u64>,
    pub ghost some: { 1 ≤ turns },
}

impl Pace {
    ghost use Rattle.std.specs.Prelude.{◌≡◌};

    /// Returns a pace of so many attempts a call and of 64 threads. It gives no number of retries.
    pub fn of_turns(turns: u64) -> Pace
        requires { 1 ≤ turns }
        ensures { result.turns ≡ turns }
    {
        Pace {
            turns,
            threads: USUAL_THREADS,
            retries: None,
        }
    }
}
