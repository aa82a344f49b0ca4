// What a layer may be asked to add: an entry of its own, around an error and of a kind that the number `value` names (a
// number, as in `Layer::wrap`), or an error of the host below.
#[derive(Drop)]
pub enum LayerAddition<A> {
    Wrap { error: u16, value: u8 },
    Below(A),
}
