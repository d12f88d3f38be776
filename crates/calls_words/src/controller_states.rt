// The states of the crates angle_pid and rate_pid.
use crate::{Operand, Operands, Results, Shown};
use angle_pid::{Pid, PidConfig, Range};
use rate_pid::{PidTerms, RatePid};

impl Operand for Range {
    fn read(operands: &mut Operands<'_>) -> Option<Range> {
        let (min, max) = operands.read()?;
        Some(Range { min, max })
    }
}

impl Shown for Range {
    fn show(self, results: &mut Results) {
        (self.min, self.max).show(results);
    }
}

impl Operand for PidConfig {
    fn read(operands: &mut Operands<'_>) -> Option<PidConfig> {
        let (kp, ki, kd, ideal) = operands.read()?;
        let (wrapping, output_limit, anti_windup, lp_filter) = operands.read()?;
        Some(PidConfig {
            kp,
            ki,
            kd,
            ideal,
            wrapping,
            output_limit,
            anti_windup,
            lp_filter,
        })
    }
}

impl Operand for Pid {
    fn read(operands: &mut Operands<'_>) -> Option<Pid> {
        let (kp, ki, kd, ts) = operands.read()?;
        let (integral, integral_en, prev_error) = operands.read()?;
        let (wrapping, output_limit, anti_windup, lp_filter) = operands.read()?;
        Some(Pid {
            kp,
            ki,
            kd,
            ts,
            integral,
            integral_en,
            prev_error,
            wrapping,
            output_limit,
            anti_windup,
            lp_filter,
        })
    }
}

impl Shown for Pid {
    fn show(self, results: &mut Results) {
        [self.kp, self.ki, self.kd, self.ts].show(results);
        (self.integral, self.integral_en, self.prev_error).show(results);
        (self.wrapping, self.output_limit, self.anti_windup).show(results);
        self.lp_filter.show(results);
    }
}

impl Operand for PidTerms {
    fn read(operands: &mut Operands<'_>) -> Option<PidTerms> {
        let (p_out, i_out, dr_out, dm_out) = operands.read()?;
        Some(PidTerms {
            p_out,
            i_out,
            dr_out,
            dm_out,
        })
    }
}

impl Shown for PidTerms {
    fn show(self, results: &mut Results) {
        [self.p_out, self.i_out, self.dr_out, self.dm_out].show(results);
    }
}

// In the order of docs/CALLS.md, which is not the one in memory.
impl Operand for RatePid {
    fn read(operands: &mut Operands<'_>) -> Option<RatePid> {
        let (kp, ki, kd) = operands.read()?;
        let (integral, prev_meas, prev_ref, terms) = operands.read()?;
        let (dt, integral_en) = operands.read()?;
        let (lowpass, d_lowpass, d_slew) = operands.read()?;
        Some(RatePid {
            kp,
            integral,
            ki,
            prev_meas,
            kd,
            prev_ref,
            dt,
            terms,
            integral_en,
            lowpass,
            d_lowpass,
            d_slew,
        })
    }
}

impl Shown for RatePid {
    fn show(self, results: &mut Results) {
        (self.kp, self.ki, self.kd).show(results);
        (self.integral, self.prev_meas, self.prev_ref).show(results);
        self.terms.show(results);
        (self.dt, self.integral_en).show(results);
        (self.lowpass, self.d_lowpass, self.d_slew).show(results);
    }
}
