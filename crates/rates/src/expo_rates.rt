// `ExpoRates` of filters/mod.rs.
ghost use Rattle.std.specs.Prelude.{◌≡◌};
ghost use Rattle.rates.specs.ExpoRates.{expo_default, new_expo, apply_expo, actual_rates, kiss_rates};

#[derive(Clone, Copy)]
pub enum RatesType {
    Actual,
    Kiss,
}

#[derive(Clone, Copy)]
pub struct ExpoRates {
    pub rates_type: RatesType,
    pub expo: f32,
    pub max_rates: f32,
    pub center_sens: f32,
}

// Kept: by hand, since its numbers are not all zero.
#[tactic(auto, unfolding(crate::specs::ExpoRates::expo_default))]
impl Default for ExpoRates {
    ghost is_default = { λ rates. rates ≡ expo_default };

    fn default() -> Self {
        ExpoRates {
            rates_type: RatesType::Actual,
            expo: 0.2,
            max_rates: 31.41,
            center_sens: 0.4,
        }
    }
}

#[tactic(auto, unfolding(crate::specs::ExpoRates::new_expo, crate::specs::ExpoRates::apply_expo))]
impl ExpoRates {
    pub fn new(rates_type: RatesType, expo: f32, max_rates: f32, center_sens: f32) -> Self
        ensures { result ≡ new_expo rates_type expo max_rates center_sens }
    {
        ExpoRates {
            rates_type,
            expo,
            max_rates,
            center_sens,
        }
    }

    pub fn apply(self, rc_command: f32) -> f32
        ensures { result ≡ apply_expo self rc_command }
    {
        match self.rates_type {
            RatesType::Actual => actual_rates(
                self.expo,
                self.max_rates,
                self.center_sens,
                rc_command,
            ),
            RatesType::Kiss => kiss_rates(self.expo, self.max_rates, rc_command),
        }
    }
}

#[tactic(auto, unfolding(crate::specs::ExpoRates::actual_rates))]
fn actual_rates(expo: f32, max_rates: f32, center_sens: f32, rc_command: f32) -> f32
    ensures { result ≡ actual_rates expo max_rates center_sens rc_command }
{
    let expof = float::abs(rc_command)
        * (float::powi5(rc_command) * expo + rc_command * (1.0 - expo));
    let center_sensitivity = center_sens * max_rates;
    let stick_movement = float::max(0.0, max_rates - center_sensitivity);
    rc_command * center_sensitivity + stick_movement * expof
}

#[tactic(auto, unfolding(crate::specs::ExpoRates::kiss_rates))]
fn kiss_rates(expo: f32, max_rates: f32, rc_command: f32) -> f32
    ensures { result ≡ kiss_rates expo max_rates rc_command }
{
    let kiss_rpy_use_rates = 1.0
        / (1.0 - float::abs(rc_command) * float::min(float::max(max_rates, 0.01), 1.0));
    let kiss_rc_command = (float::powi3(rc_command) * expo + rc_command * (1.0 - expo)) * max_rates;
    kiss_rpy_use_rates * kiss_rc_command
}
