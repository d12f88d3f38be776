// One lane: a rate controller with open and closed. `Lane::step` is the one meaning of a call on a lane, and the methods
// are its calls one by one. A lane that is closed, or open already, is refused before its stored controller is tested,
// and that before what the call is given. Refused, the lane is as it was.
ghost use Rattle.std.specs.Prelude.{◌≡◌, Some, true, false};
ghost use Rattle.refusal.specs.declared.Refusal.TheVariants as Refusal;
ghost use Rattle.bank.specs.Lane.{closed_lane, called, plain, plain_step, after_setter, after_update, after_read, call_lane};
ghost use Rattle.bank.specs.declared.lane.Op.TheVariants as Op;

use rate_pid::{PidTerms, RatePid, Updated};
use refusal::{Answer, Refusal, answer_of, given, refusal_of};

// Kept: `open` beside the controller, and no Option of one. A closed lane stores a controller too, which `open` tests.
// Public, so that a lane can be built by hand.
#[derive(Clone, Copy)]
pub struct Lane {
    pub open: bool,
    pub pid: RatePid,
}

// What can be asked of a lane.
#[derive(Clone, Copy)]
pub enum Op {
    Open {
        kp: f32,
        ki: f32,
        kd: f32,
        tau: f32,
        dt: f32,
        slew: Option<f32>,
    },
    Close,
    Update {
        reference: f32,
        measurement: f32,
        prediction: f32,
    },
    SetTs(f32),
    SetGains {
        kp: f32,
        ki: f32,
        kd: f32,
    },
    EnableIntegral(bool),
    ResetIntegral,
    ReadTerms,
}

// What a call gives: y is an update's value, terms what `terms` reads. The numbers that a call does not give are +0, and
// so are all of a refused call.
#[derive(Clone, Copy, Default)]
pub struct Reply {
    pub y: f32,
    pub terms: PidTerms,
}

// What a call answers, and the lane or the bank after it.
#[derive(Clone, Copy)]
pub struct Called<S> {
    pub answer: Answer<Reply>,
    pub state: S,
}

// An answer without numbers.
#[tactic(auto, unfolding(rate_pid::specs::RatePid::zero_terms))]
pub(crate) fn plain<S>(why: Option<Refusal>, state: S) -> Called<S>
    ensures { result ≡ called (plain why) state }
{
    Called {
        answer: answer_of(why, Reply::default()),
        state,
    }
}

// A controller's own setter, made on an open lane.
fn after_setter(next: Answer<RatePid>) -> Called<Lane>
    ensures { result ≡ after_setter next }
{
    let why = refusal_of(&next);
    plain(
        why,
        Lane {
            open: true,
            pid: given(next),
        },
    )
}

// An update of the controller, made on an open lane.
#[tactic(auto, unfolding(rate_pid::specs::RatePid::zero_terms))]
fn after_update(next: Updated) -> Called<Lane>
    ensures { result ≡ after_update next }
{
    let reply = Reply {
        y: given(next.answer),
        ..Reply::default()
    };
    Called {
        answer: answer_of(refusal_of(&next.answer), reply),
        state: Lane {
            open: true,
            pid: next.pid,
        },
    }
}

impl Lane {
    // Closed, its controller all zero.
    #[tactic(auto, unfolding(crate::specs::Lane::closed_lane))]
    pub fn closed() -> Self
        ensures { result ≡ closed_lane }
    {
        Lane {
            open: false,
            pid: RatePid::zero(),
        }
    }

    // Kept: five numbers apart, as document 01's call takes them.
    #[tactic(auto, unfolding(crate::specs::Lane::call_lane, crate::specs::Lane::when_good, crate::specs::Lane::opened))]
    pub fn open(
        self,
        kp: f32,
        ki: f32,
        kd: f32,
        tau: f32,
        dt: f32,
        slew: Option<f32>,
    ) -> Called<Self>
        ensures { result ≡ call_lane self (Op.Open kp ki kd tau dt slew) }
    {
        if self.open {
            return plain(Some(Refusal::Open), self);
        }
        if self.pid.bad() {
            return plain(Some(Refusal::Slew), self);
        }
        let made = RatePid::new(kp, ki, kd, tau, dt);
        match slew {
            None => after_setter(Ok(made)),
            Some(limit) => {
                if filters::bad_limit(limit) {
                    return plain(Some(Refusal::Slew), self);
                }
                after_setter(made.slew(limit))
            }
        }
    }

    // A call on an open lane. A closed one is refused.
    // Kept: it asks that the closure may be called, as the language wants it said.
    fn when_open<F: FnOnce(RatePid) -> Called<Lane>>(self, call: F) -> Called<Self>
        requires { F.IsAlwaysCallable call }
        ensures opened { self.«open» ≡ true → F.post call self.pid result }
        ensures shut { self.«open» ≡ false → result ≡ plain_step (Some Refusal.Closed) self }
    {
        if self.open {
            call(self.pid)
        } else {
            plain(Some(Refusal::Closed), self)
        }
    }

    #[tactic(auto, unfolding(crate::specs::Lane::call_lane, crate::specs::Lane::when_open, crate::specs::Lane::when_good))]
    pub fn close(self) -> Called<Self>
        ensures { result ≡ call_lane self Op.Close }
    {
        self.when_open(|pid| {
            if pid.bad() {
                plain(Some(Refusal::Slew), self)
            } else {
                plain(None, Lane::closed())
            }
        })
    }

    #[tactic(auto, unfolding(crate::specs::Lane::call_lane, crate::specs::Lane::when_open))]
    pub fn update(self, reference: f32, measurement: f32, prediction: f32) -> Called<Self>
        ensures { result ≡ call_lane self (Op.Update reference measurement prediction) }
    {
        self.when_open(|pid| after_update(pid.update(reference, measurement, prediction)))
    }

    #[tactic(auto, unfolding(crate::specs::Lane::call_lane, crate::specs::Lane::when_open))]
    pub fn set_ts(self, ts: f32) -> Called<Self>
        ensures { result ≡ call_lane self (Op.SetTs ts) }
    {
        self.when_open(|pid| after_setter(pid.set_ts(ts)))
    }

    #[tactic(auto, unfolding(crate::specs::Lane::call_lane, crate::specs::Lane::when_open))]
    pub fn set_gains(self, kp: f32, ki: f32, kd: f32) -> Called<Self>
        ensures { result ≡ call_lane self (Op.SetGains kp ki kd) }
    {
        self.when_open(|pid| after_setter(pid.set_gains(kp, ki, kd)))
    }

    #[tactic(auto, unfolding(crate::specs::Lane::call_lane, crate::specs::Lane::when_open))]
    pub fn enable_integral(self, enable: bool) -> Called<Self>
        ensures { result ≡ call_lane self (Op.EnableIntegral enable) }
    {
        self.when_open(|pid| after_setter(pid.enable_integral(enable)))
    }

    #[tactic(auto, unfolding(crate::specs::Lane::call_lane, crate::specs::Lane::when_open))]
    pub fn reset_integral(self) -> Called<Self>
        ensures { result ≡ call_lane self Op.ResetIntegral }
    {
        self.when_open(|pid| after_setter(pid.reset_integral()))
    }

    #[tactic(auto, unfolding(crate::specs::Lane::call_lane, crate::specs::Lane::when_open))]
    pub fn terms(self) -> Called<Self>
        ensures { result ≡ call_lane self Op.ReadTerms }
    {
        self.when_open(|pid| self.after_read(pid.get_terms()))
    }

    // The controller's terms, read on this lane.
    fn after_read(self, read: Answer<PidTerms>) -> Called<Self>
        ensures { result ≡ after_read self read }
    {
        let terms = given(read);
        Called {
            answer: answer_of(refusal_of(&read), Reply { y: 0.0, terms }),
            state: self,
        }
    }

    pub fn step(self, op: Op) -> Called<Self>
        ensures { result ≡ call_lane self op }
    {
        match op {
            Op::Open {
                kp,
                ki,
                kd,
                tau,
                dt,
                slew,
            } => self.open(kp, ki, kd, tau, dt, slew),
            Op::Close => self.close(),
            Op::Update {
                reference,
                measurement,
                prediction,
            } => self.update(reference, measurement, prediction),
            Op::SetTs(ts) => self.set_ts(ts),
            Op::SetGains { kp, ki, kd } => self.set_gains(kp, ki, kd),
            Op::EnableIntegral(enable) => self.enable_integral(enable),
            Op::ResetIntegral => self.reset_integral(),
            Op::ReadTerms => self.terms(),
        }
    }
}
