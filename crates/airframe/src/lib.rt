// airframe/mod.rs: where a frame's motors stand, and the matrix that mixes them. The definitions and the functions from
// `row_sums` to `mix` hold for any number of motors; a frame of four is an instance of them.
#![tactic(auto, unfolding(crate::specs::Airframe::signs_at, crate::specs::Airframe::table, crate::specs::Airframe::signed, crate::specs::Airframe::frame_motor, crate::specs::Airframe::column, crate::specs::Airframe::add_squares, crate::specs::Airframe::divided, crate::specs::Airframe::good_sum, crate::specs::Airframe::good_sums, crate::specs::Airframe::dir_of, crate::specs::Airframe::call_quad_x_basic, crate::specs::Airframe::call_quad_p_basic, crate::specs::Airframe::dev_quad_motor_setup))]

ghost use Rattle.std.specs.Prelude.{◌≡◌, ◌+◌, ◌*◌, ◌<◌, ◌≤◌, length};
ghost use Rattle.airframe.specs.Airframe.{signs_at, signed, frame_motor, frame, rows_from, column, add_squares, divided, sums_of, good_sum, good_sums, entries, refusal_of, matrix_of, dir_of, quad, call_quad_x_basic, call_quad_p_basic, dev_quad_motor_setup};

use refusal::{Answer, Refusal, answer_of};

// What a frame makes of a distance: +0 whatever it is, the distance as it is, or with its sign turned.
#[derive(Clone, Copy)]
enum Sign {
    Nought,
    Plus,
    Minus,
}

// The signs of a motor's x, y and reaction.
#[derive(Clone, Copy)]
struct Signs(Sign, Sign, Sign);

// Four motors to a frame: the X frame's back right, front right, back left, front left; then the plus frame's right,
// front, back, left.
const FRAMES: [Signs; 8] = [
    Signs(Sign::Minus, Sign::Plus, Sign::Plus),
    Signs(Sign::Plus, Sign::Plus, Sign::Minus),
    Signs(Sign::Minus, Sign::Minus, Sign::Minus),
    Signs(Sign::Plus, Sign::Minus, Sign::Plus),
    Signs(Sign::Nought, Sign::Plus, Sign::Plus),
    Signs(Sign::Plus, Sign::Nought, Sign::Minus),
    Signs(Sign::Minus, Sign::Nought, Sign::Minus),
    Signs(Sign::Nought, Sign::Minus, Sign::Plus),
];

// A motor's place and the reaction of its propeller.
#[derive(Clone, Copy, Default)]
struct Motor {
    x: f32,
    y: f32,
    reaction: f32,
}

// One number for each row of the effectiveness matrix: the turns about x, y and z, and the push.
// Kept: four names, and no array. A column has a formula for each row, and the definitions are over the four.
#[derive(Clone, Copy, Default)]
struct PerRow {
    roll: f32,
    pitch: f32,
    yaw: f32,
    thrust: f32,
}

// What the motors of a frame have in common: half of the distances between them, the reaction of their propellers, and
// its factor, -1 where every propeller turns the other way round.
#[derive(Clone, Copy)]
struct Measures {
    half_x: f32,
    half_y: f32,
    reaction: f32,
    dir: f32,
}

// The one place where the table is read.
fn signs_at(at: usize) -> Signs
    requires { at < 8 }
    ensures { result ≡ signs_at at }
{
    FRAMES[at]
}

fn signed(sign: Sign, distance: f32) -> f32
    ensures { result ≡ signed sign distance }
{
    match sign {
        Sign::Plus => distance,
        Sign::Minus => -distance,
        Sign::Nought => 0.0,
    }
}

impl Measures {
    fn frame_motor(self, signs: Signs) -> Motor
        ensures { result ≡ frame_motor self signs }
    {
        Motor {
            x: signed(signs.0, self.half_x),
            y: signed(signs.1, self.half_y),
            reaction: signed(signs.2, self.reaction) * self.dir,
        }
    }

    // The motors of as many rows of the table as there is room for, from `first` on.
    fn place(self, first: usize, out: &mut [Motor])
        requires { first + length out.old ≤ 8 }
        ensures { out.new ≡ frame self (rows_from first (length out.old)) }
    {
        for (i, motor) in out.iter_mut().enumerate() {
            *motor = self.frame_motor(signs_at(first + i));
        }
    }
}

// A motor's column: the turns about x, y and z that it gives while it pushes along -z with thrust 1, and that push.
fn column(m: Motor) -> PerRow
    ensures { result ≡ column m }
{
    PerRow {
        roll: -m.y,
        pitch: m.x,
        yaw: -m.reaction,
        thrust: -1.0,
    }
}

fn add_squares(s: PerRow, c: PerRow) -> PerRow
    ensures { result ≡ add_squares s c }
{
    PerRow {
        roll: s.roll + c.roll * c.roll,
        pitch: s.pitch + c.pitch * c.pitch,
        yaw: s.yaw + c.yaw * c.yaw,
        thrust: s.thrust + c.thrust * c.thrust,
    }
}

fn divided(c: PerRow, s: PerRow) -> PerRow
    ensures { result ≡ divided c s }
{
    PerRow {
        roll: c.roll / s.roll,
        pitch: c.pitch / s.pitch,
        yaw: c.yaw / s.yaw,
        thrust: c.thrust / s.thrust,
    }
}

// The sum of squares of each row, from +0, in motor order.
fn row_sums(motors: &[Motor]) -> PerRow
    ensures { result ≡ sums_of motors.now }
{
    let mut s = PerRow::default();
    for motor in motors {
        s = add_squares(s, column(*motor));
    }
    s
}

// Above 0 and finite.
fn good_sum(s: f32) -> bool
    ensures { result ≡ good_sum s }
{
    s > 0.0 && s < f32::INFINITY
}

fn good_sums(s: PerRow) -> bool
    ensures { result ≡ good_sums s }
{
    good_sum(s.roll) && good_sum(s.pitch) && good_sum(s.yaw) && good_sum(s.thrust)
}

// Writes each motor's column, divided row by row by the sums.
fn divide(motors: &[Motor], s: PerRow, out: &mut [f32])
    requires { length out.old ≡ 4 * length motors.now }
    ensures { out.new ≡ entries s motors.now }
{
    for (i, motor) in motors.iter().enumerate() {
        let e = divided(column(*motor), s);
        let at = 4 * i;
        out[at] = e.roll;
        out[at + 1] = e.pitch;
        out[at + 2] = e.yaw;
        out[at + 3] = e.thrust;
    }
}

// The mixing matrix of a lent run of motors, four numbers a motor, in motor order. Refused, the numbers are +0.
fn mix(motors: &[Motor], out: &mut [f32]) -> Option<Refusal>
    requires { length out.old ≡ 4 * length motors.now }
    ensures { (result ≡ refusal_of motors.now) × (out.new ≡ matrix_of motors.now) }
{
    let s = row_sums(motors);
    if good_sums(s) {
        divide(motors, s, out);
        return None;
    }
    out.fill(0.0);
    Some(Refusal::RowSum)
}

fn dir_of(turned: bool) -> f32
    ensures { result ≡ dir_of turned }
{
    if turned { -1.0 } else { 1.0 }
}

// A frame of four motors: four numbers a motor, the motors in the Rust's order. The Rust makes a `MotorSetup` and asks it for
// `into_mixing_matrix`; here one call does both. The Rust's `position` has half of each distance, and its `reaction` the direction
// as a factor.
#[tactic(auto, unfolding(crate::specs::Airframe::dir_of, crate::specs::Airframe::quad_motors, crate::specs::Airframe::mixed, crate::specs::Airframe::quad))]
fn quad(first: usize, x_dist: f32, y_dist: f32, reaction: f32, turned: bool) -> Answer<[f32; 16]>
    requires { first + 4 ≤ 8 }
    ensures { result ≡ quad first x_dist y_dist reaction turned }
{
    let measures = Measures {
        half_x: x_dist / 2.0,
        half_y: y_dist / 2.0,
        reaction,
        dir: dir_of(turned),
    };
    let mut motors = [Motor::default(); 4];
    measures.place(first, &mut motors);
    let mut matrix = [0.0f32; 16];
    let why = mix(&motors, &mut matrix);
    answer_of(why, matrix)
}

// The X frame; `outspin` turns every propeller the other way round.
// Kept: a bool, as the Rust's call takes it. It is a switch with no value beside it, and so is `reverse` below.
pub fn quad_x_basic(x_dist: f32, y_dist: f32, reaction: f32, outspin: bool) -> Answer<[f32; 16]>
    ensures { result ≡ call_quad_x_basic x_dist y_dist reaction outspin }
{
    quad(0, x_dist, y_dist, reaction, outspin)
}

// The plus frame; `reverse` turns every propeller the other way round.
pub fn quad_p_basic(
    x_motor_spacing: f32,
    y_motor_spacing: f32,
    reaction: f32,
    reverse: bool,
) -> Answer<[f32; 16]>
    ensures { result ≡ call_quad_p_basic x_motor_spacing y_motor_spacing reaction reverse }
{
    quad(4, x_motor_spacing, y_motor_spacing, reaction, reverse)
}

// The Rust's constant DEV_QUAD_MOTOR_SETUP, as a function: a constant cannot hold a call here.
pub fn dev_quad_motor_setup() -> Answer<[f32; 16]>
    ensures { result ≡ dev_quad_motor_setup }
{
    quad_x_basic(0.165, 0.225, 0.1, false)
}
