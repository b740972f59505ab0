ghost use Rattle.part_network.specs.Frames.{IsFrame};

use table_model::Node;

/// A frame that was sent.
#[derive(Drop)]
pub(crate) struct Packet {
    pub(crate) from: Node,
    pub(crate) to: Node,
    pub(crate) frame: Vec<u8>,
    ghost is_frame: { IsFrame frame.items },
}
