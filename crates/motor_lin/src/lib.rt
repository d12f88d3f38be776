// motor_lin.rs: the curve between a motor's command and its thrust.
#![tactic(auto)]

ghost use Rattle.std.specs.Prelude.{◌≡◌};
ghost use Rattle.motor_lin.specs.MotorLin.{thrust, command, thrust_of, command_of, bad_motor, unless_bad, call_new_motor_lin, call_command_to_force, call_force_to_command, call_min_force, call_max_force};

use refusal::{Answer, Refusal};

// Kept: two types of one shape, since they are the two units: one is not accepted where the other is asked for.
#[derive(Clone, Copy, Debug, Default, PartialEq)]
pub struct Command(pub f32);

#[derive(Clone, Copy, Debug, Default, PartialEq)]
pub struct Thrust(pub f32);

#[derive(Clone, Copy, Debug, Default, PartialEq)]
pub struct MotorLin {
    pub a: f32,
    pub b: f32,
    pub c_min: Command,
    pub c_max: Command,
    pub f_min: Thrust,
    pub f_max: Thrust,
}

impl MotorLin {
    fn thrust_of(self, command: Command) -> Thrust
        ensures { result ≡ thrust (thrust_of self.a self.b self.c_min.0 self.c_max.0 command.0) }
    {
        let x = float::clamp(command.0, self.c_min.0, self.c_max.0);
        Thrust(self.a * x * x / (1.0 + self.b * x * x))
    }

    fn command_of(self, force: Thrust) -> Command
        ensures { result ≡ command (command_of self.a self.b self.f_min.0 self.f_max.0 force.0) }
    {
        let x = float::clamp(force.0, self.f_min.0, self.f_max.0);
        Command(root::sqrt(x / (self.a - x * self.b)))
    }

    // Whether a limit does not hold: as stored, whoever made the motor.
    fn bad(self) -> bool
        ensures { result ≡ bad_motor self }
    {
        !(self.c_min.0 <= self.c_max.0 && self.f_min.0 <= self.f_max.0)
    }

    // An answer, and what it is where the motor is refused.
    fn unless_bad<A: Drop>(self, refused: A, answer: A) -> Answer<A>
        ensures { result ≡ unless_bad self refused answer }
    {
        if self.bad() {
            return Refusal::Motor.with(refused);
        }
        Ok(answer)
    }

    // The motor with its thrusts worked out. Refused, the all-zero motor.
    pub fn new(a: f32, b: f32, min: Command, max: Command) -> Answer<MotorLin>
        ensures { result ≡ call_new_motor_lin a b min max }
    {
        let curve = MotorLin {
            a,
            b,
            c_min: min,
            c_max: max,
            ..MotorLin::default()
        };
        let motor = MotorLin {
            f_min: curve.thrust_of(min),
            f_max: curve.thrust_of(max),
            ..curve
        };
        motor.unless_bad(MotorLin::default(), motor)
    }

    pub fn command_to_force(self, command: Command) -> Answer<Thrust>
        ensures { result ≡ call_command_to_force self command }
    {
        self.unless_bad(Thrust(0.0), self.thrust_of(command))
    }

    pub fn force_to_command(self, force: Thrust) -> Answer<Command>
        ensures { result ≡ call_force_to_command self force }
    {
        self.unless_bad(Command(0.0), self.command_of(force))
    }

    pub fn min_force(self) -> Answer<Thrust>
        ensures { result ≡ call_min_force self }
    {
        self.unless_bad(Thrust(0.0), self.f_min)
    }

    pub fn max_force(self) -> Answer<Thrust>
        ensures { result ≡ call_max_force self }
    {
        self.unless_bad(Thrust(0.0), self.f_max)
    }
}
