// The root by itself and the two calls that take it, for C and Rust to link: the benchmarks and `oracle/exhaustive` call
// them.
#![tactic(auto)]

ghost use Rattle.std.specs.Prelude.{◌≡◌};
ghost use Rattle.root.specs.Root.{root};
ghost use Rattle.bench_root.specs.Callers.{command_for, deviation_of};

use motor_lin::{Command, MotorLin, Thrust};
use statistics::Statistics;

#[unsafe(no_mangle)]
pub extern "C" fn plumradek_sqrt(x: f32) -> f32
    ensures { result ≡ root x }
{
    root::sqrt(x)
}

// The command for a thrust, of a motor given by its six numbers.
#[unsafe(no_mangle)]
pub extern "C" fn plumradek_force_to_command(
    a: f32,
    b: f32,
    c_min: f32,
    c_max: f32,
    f_min: f32,
    f_max: f32,
    force: f32,
) -> f32
    ensures { result ≡ command_for a b c_min c_max f_min f_max force }
{
    let motor = MotorLin {
        a,
        b,
        c_min: Command(c_min),
        c_max: Command(c_max),
        f_min: Thrust(f_min),
        f_max: Thrust(f_max),
    };
    refusal::given(motor.force_to_command(Thrust(force))).0
}

// The standard deviation of a state with this factor and this variance.
#[unsafe(no_mangle)]
pub extern "C" fn plumradek_std_dev(alpha: f32, variance: f32) -> f32
    ensures { result ≡ deviation_of alpha variance }
{
    let state = Statistics {
        initialized: true,
        alpha,
        mean: 0.0,
        variance,
    };
    refusal::given(state.std_dev())
}
