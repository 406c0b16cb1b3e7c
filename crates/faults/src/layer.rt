// The layer that refuses a call.
#[derive(Drop, Clone, Copy, PartialEq, Eq, Debug)]
pub enum Layer {
    Line,
    Table,
    Monitor,
}
