//! Theorems on relays: one outcome per event, however requests are split, and an append-only log.
ghost use Rattle.relay_core.specs.Laws.{EventsComeOnce, SessionsByWholeTexts};
ghost use Rattle.relay_core.specs.OpLogs.{LogsAreOfOperations, LogsGrow, RepliesJoin};

/// Each event has exactly one outcome, in every state of a relay, and so have events one after another.
pub fn events_come_once()
    ensures { EventsComeOnce }
{}

/// A relay is told by the whole texts of its sessions: the bytes of a session's pieces joined say what joins the log
/// and what the session is answered.
pub fn sessions_by_whole_texts()
    ensures { SessionsByWholeTexts }
{}

/// The log of a relay is one of operations: their own frames, none twice, no more than the limit, whatever the clients
/// send. It only grows, so a client that begins where its last reply ended gets exactly what came since.
pub fn logs_only_grow()
    ensures operations { LogsAreOfOperations }
    ensures grow { LogsGrow }
    ensures join { RepliesJoin }
{}
