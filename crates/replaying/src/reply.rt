use calls::Answer;
use images::LoadFault;

pub mod printing;

// What is answered to a line: all that is printed after an arrow, so that it has one Display.
#[derive(Clone, Copy)]
pub enum Reply {
    Answered(Answer),
    // put, hole, done or void while no slip is held
    NoSlip,
    NotLoaded(LoadFault),
    NotACall,
}
