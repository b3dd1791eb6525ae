// Why a player was not opened, with the drawing.
use drawing::Drawing;
use faults::Fault;

#[derive(Drop)]
pub struct Unopened {
    pub fault: Fault,
    pub drawing: Drawing,
}
