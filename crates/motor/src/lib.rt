// Motor heights: the boundary z of a plan in micrometres, for a motor whose step is given in eighths of a micrometre.
#![tactic(auto)]

ghost use Rattle.std.specs.Prelude.{◌≡◌, [], ◌∷◌};
ghost use Rattle.lists.specs.Checks.{first};
ghost use Rattle.plate.specs.Refusal.{said_by, told};
ghost use Rattle.motor.specs.Height.{step_check, height_answer, Lifts};

use plate::refusal::{Reason, Refusal, refusal_at};

// A motor's limits: its step, and the boundaries that it can be sent to.
pub const LEAST_STEP: u32 = 1;

pub const GREATEST_STEP: u32 = 8192;

pub const LOWEST: i32 = -31;

pub const HIGHEST: i32 = 543;

// Refusal 14.
pub fn check_step(step: u32) -> Result<(), Refusal>
    ensures { said_by result ≡ first (step_check step ∷ []) }
{
    if !(LEAST_STEP..=GREATEST_STEP).contains(&step) {
        return Err(refusal_at(Reason::Step, 0));
    }
    Ok(())
}

// Refusals 14 and 15, or the height: the f32 whose eightfold is exactly z times the step.
pub fn motor_height(step: u32, z: i32) -> Result<f32, Refusal>
    ensures { (told result ≡ height_answer step z) × Lifts result step z }
{
    check_step(step)?;
    if !(LOWEST..=HIGHEST).contains(&z) {
        return Err(refusal_at(Reason::MotorBoundary, 0));
    }
    let s = step as i32;
    // Document 01, 'Choosing the form by place': the whole product, cast to f32 and divided by 8.0.
    Ok((z * s) as f32 / 8.0)
}
