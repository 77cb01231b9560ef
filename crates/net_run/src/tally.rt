// The tally of rounds, handed on from act to act.

ghost use Rattle.std.specs.Prelude.{◌≡◌, ◌+◌, ◌≤◌, ◌<◌, ◌^◌};
ghost use Rattle.net_run.specs.Tallied.{tallied};
ghost use Rattle.route_rules.specs.Rounds.{fresh_tally, tally_act};

#[derive(Clone, Copy)]
pub struct RoundTally {
    // bit v is set if router v has acted since the round before ended
    pub seen: u64,
    // how many routers have not
    pub missing: usize,
    // the rounds that have ended
    pub ended: usize,
}

impl RoundTally {
    pub fn new(n: usize) -> Self
        ensures { tallied result ≡ fresh_tally n }
    {
        RoundTally {
            seen: 0,
            missing: n,
            ended: 0,
        }
    }

    // The tally after one act more.
    pub fn act(self, n: usize, router: usize) -> RoundTally
        requires { (n ≤ 64) × (router < n) × (0 < self.missing) × (self.ended + 1 < 2 ^ 64) }
        ensures { tallied result ≡ tally_act n (tallied self) router }
    {
        if base::bits::has_bit(self.seen, router) {
            return self;
        }
        if self.missing == 1 {
            return RoundTally {
                seen: 0,
                missing: n,
                ended: self.ended + 1,
            };
        }
        RoundTally {
            seen: base::bits::with_bit(self.seen, router),
            missing: self.missing - 1,
            ended: self.ended,
        }
    }
}
