// Why a replay made no call, with the drawing.
use drawing::Drawing;
use player::Unopened;

#[derive(Drop)]
pub enum Halt {
    Refused(Unopened),
    NoMemory(Drawing),
}
