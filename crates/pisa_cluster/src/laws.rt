// The laws of clusters, each the contract of a function that does nothing.
ghost use Rattle.std.specs.Prelude.{◌≡◌, ◌++◌, ◌∷◌, [], ℕ, List};
ghost use Rattle.pisa_cluster.specs.Replay.{start_of_joint};
ghost use Rattle.pisa_cluster.specs.Schedules.{Schedule, Move, MovesLead, Undoes, IsCluster};
ghost use Rattle.pisa_cluster.specs.declared.processor.Kept.{Kept};
ghost use Rattle.pisa_cluster.specs.declared.cluster.Undone.TheVariants.{Blocked};

/// After any list of steps, undoings and rewinds the state is the replay of the start over the kept
/// steps in order. No step of that replay is a stop, and each touches what is noted. The start
/// stays what it was.
pub fn schedules_replay()
    ensures keeps { (moves : List Move) (c d : Schedule) → IsCluster c → MovesLead moves c d → IsCluster d }
    ensures start { (moves : List Move) (c d : Schedule) → IsCluster c → MovesLead moves c d
        → start_of_joint d.joint ≡ start_of_joint c.joint }
{}

/// The last of the kept steps can be undone: the undoing of its processor's last step is never
/// blocked.
pub fn last_step_is_free()
    ensures { (c d : Schedule) (earlier : List Kept) (step : Kept) (other serial : ℕ)
        → c.kept ≡ earlier ++ step ∷ [] → ¬ Undoes step.who (Blocked other serial) c d }
{}
