//! Theorems: the encoding is prefix-free and round-trips; bytes have one reading, and a stream has one end.
ghost use Rattle.origin_model.specs.declared.grammar.Grammar.TheVariants.{Version1, Version2};
ghost use Rattle.op_frame.specs.Laws.{ComesOnce, FramesAre, OneFrame, ReadsOnce};

/// Each item has one frame, each operation has one of its own, and no frame is a proper prefix of another.
pub fn one_frame()
    ensures version_1 { OneFrame Version1 }
    ensures version_2 { OneFrame Version2 }
{}

/// All bytes have exactly one reading by each grammar: its operations, and how the bytes end.
pub fn reads_once()
    ensures version_1 { ReadsOnce Version1 }
    ensures version_2 { ReadsOnce Version2 }
{}

/// What is written of operations is one list of bytes, and is read as these operations.
pub fn frames_are()
    ensures { FramesAre }
{}

/// Each stream comes to exactly one end, from any state and within any limits.
pub fn comes_once()
    ensures version_1 { ComesOnce Version1 }
    ensures version_2 { ComesOnce Version2 }
{}
