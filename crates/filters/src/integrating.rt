// The coefficient of both integrating filters, made in this one place.
ghost use Rattle.std.specs.Prelude.{◌≡◌};
ghost use Rattle.filters.specs.Integrating.{integrating_alpha};

#[tactic(auto, unfolding(crate::specs::Integrating::integrating_alpha))]
pub fn alpha(tau: f32, dt: f32) -> f32
    ensures { result ≡ integrating_alpha tau dt }
{
    dt / (tau + dt)
}
