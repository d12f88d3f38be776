// The low pass on the derivative, of which a controller has an Option.
ghost use Rattle.std.specs.Prelude.{◌≡◌, Some};
ghost use Rattle.angle_pid.specs.LpFilter.{tau_refusal, new_lp_filter, step_lp_filter};

use filters::Lowpass;
use refusal::Refusal;
use step::Stepped;

#[tactic(auto, unfolding(crate::specs::LpFilter::tau_refusal))]
pub(crate) fn tau_refusal(tau: f32) -> Option<Refusal>
    ensures { result ≡ tau_refusal (Some tau) }
{
    if tau > 0.0 { None } else { Some(Refusal::Tau) }
}

#[tactic(auto, unfolding(crate::specs::LpFilter::new_lp_filter))]
pub(crate) fn new_lp_filter(tau: Option<f32>, ts: f32) -> Option<Lowpass>
    ensures { result ≡ new_lp_filter tau ts }
{
    tau.map(|tau| Lowpass::new(tau, ts))
}

#[tactic(auto, unfolding(crate::specs::LpFilter::step_lp_filter))]
pub(crate) fn step_lp_filter(filter: Option<Lowpass>, x: f32) -> Stepped<Option<Lowpass>>
    ensures { result ≡ step_lp_filter filter x }
{
    match filter {
        None => Stepped { y: x, state: None },
        Some(lowpass) => {
            let next = lowpass.update(x);
            Stepped {
                y: next.y,
                state: Some(next.state),
            }
        }
    }
}
