/// What a node did with its devices: one write, or nothing where nothing was to be done.
#[derive(Debug, Clone, Copy, PartialEq, Eq)]
pub enum Step {
    Idle,
    LogOpen,
    ChunkPut,
    RowPut,
    ChunkDrop,
    LogClose,
    TablePut,
    SubPut,
    OpenChunks,
    OpenRows,
    OpenLog,
    Intend,
    Commit,
    SlotPut,
    Done,
    OpenJournal,
    OpenSlots,
}
