// The rate controller's update where it lies, for callers who hand the state over and take it back: it lends its own parameter.
#![tactic(auto)]

ghost use Rattle.std.specs.Prelude.{◌≡◌};
ghost use Rattle.rate_pid.specs.RatePid.{call_update_rate_pid};

use rate_pid::{RatePid, Updated};

pub fn update(mut pid: RatePid, reference: f32, measurement: f32, prediction: f32) -> Updated
    ensures { result ≡ call_update_rate_pid pid reference measurement prediction }
{
    let answer = rate_pid::update_in_place(&mut pid, reference, measurement, prediction);
    Updated { answer, pid }
}
