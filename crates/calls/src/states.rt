// The states that calls work on, one of each type, and the parts that know the calls.
use bank::Bank;
use calls_controllers::Controllers;
use calls_filters::Filters;
use calls_motor_statistics::MotorStatistics;
use calls_notch::NotchStates;
use calls_words::{Call, Reply, Results};

#[derive(Clone, Copy)]
pub(crate) struct States {
    filters: Filters,
    motor_statistics: MotorStatistics,
    controllers: Controllers,
    bank: Bank,
    notches: NotchStates,
}

// All-zero, and every lane closed.
// Kept: by hand, since a fresh bank is made by its own call.
impl Default for States {
    fn default() -> States {
        States {
            filters: Filters::default(),
            motor_statistics: MotorStatistics::default(),
            controllers: Controllers::default(),
            bank: Bank::fresh(),
            notches: NotchStates::default(),
        }
    }
}

impl States {
    // The first part that knows the call makes it.
    pub(crate) fn answer(&mut self, line: &[u8], results: &mut Results) -> Reply {
        let call = Call::of(line);
        calls_numbers::answer(call, results)
            .or_else(|| calls_curves::answer(call, results))
            .or_else(|| self.filters.answer(call, results))
            .or_else(|| self.motor_statistics.answer(call, results))
            .or_else(|| self.controllers.answer(call, results))
            .or_else(|| calls_bank::answer(call, &mut self.bank, results))
            .or_else(|| self.notches.answer(call, results))
    }
}
