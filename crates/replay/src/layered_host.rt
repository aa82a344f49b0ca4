// Hosts that are built of layers, and what they are asked to add.
use drive_host::drive::DriveHost;
use host::host::GrowingHost;
use layers::addition::LayerAddition;
use layers::entry_kind::EntryKind;
use layers::layer::Layer;
use table_host::table::TableHost;

// A host under layers.
pub trait LayeredHost: GrowingHost {
    // What it is asked for an entry of the layer that stands so many below the topmost; none where there is no such layer.
    fn addition(depth: usize, error: u16, value: u8) -> Option<Self::Addition>;
}

impl LayeredHost for TableHost {
    fn addition(_depth: usize, _error: u16, _value: u8) -> Option<()> {
        None
    }
}

impl LayeredHost for DriveHost {
    fn addition(_depth: usize, _error: u16, _value: u8) -> Option<()> {
        None
    }
}

impl<H: LayeredHost, K: EntryKind> LayeredHost for Layer<H, K> {
    fn addition(depth: usize, error: u16, value: u8) -> Option<LayerAddition<H::Addition>> {
        if depth == 0 {
            Some(LayerAddition::Wrap { error, value })
        } else {
            Some(LayerAddition::Below(H::addition(depth - 1, error, value)?))
        }
    }
}
