//! What is true of every provider, each a function that does nothing.

ghost use Rattle.std.specs.Prelude.{◌≡◌, ◌≤◌, ◌+◌, ◌∷◌, ◌++◌, ℕ, true, false, List, length, Option};
ghost use Rattle.std.specs.List.{All};
ghost use Rattle.nsi_primitive.specs.Printable.{IsPrintableEntry};
ghost use Rattle.nsi_primitive.specs.declared.entry.Entry.{Entry};
ghost use Rattle.nsi_primitive.specs.declared.entry.Happening.{Happening};
ghost use Rattle.stp_topology.specs.declared.network.Network.{Network};
ghost use Rattle.provider_agent.specs.Setting.{Setting, setting_of};
ghost use Rattle.provider_agent.specs.State.{State, blank};
ghost use Rattle.provider_agent.specs.Good.{IsGood};
ghost use Rattle.agent_state.specs.Entries.{most_entries};
ghost use Rattle.provider_agent.specs.Steps.{after, may_take};
ghost use Rattle.provider_agent.specs.Runs.{after_all};
ghost use Rattle.provider_agent.specs.Safety.{IsCapped, IsRun, IsSafe};
ghost use Rattle.provider_agent.specs.Events.{all_synced, journal_after, batch};
ghost use Rattle.provider_agent.specs.Cuts.{Journal};
ghost use Rattle.provider_agent.specs.AgentRuns.{MayEnter, AreAllowed, IsAgentRun, caused, AreSafe, StaysCaused};
ghost use Rattle.provider_agent.specs.Replay.{replay, replayed};
ghost use Rattle.provider_agent.specs.Points.{HasItsCapacities, HasNoOthers, IsWithinTopology, HavePoints};

/// A provider that has taken nothing yet is good, and from a good state every run is safe.
pub fn every_run_safe()
    ensures first { (setting : Setting) → IsGood setting blank }
    ensures safe { (setting : Setting) (stp_of : List ℕ → Option ℕ) (s : State) (es : List Entry) →
        IsGood setting s → IsRun setting stp_of s es → IsSafe setting stp_of s es }
{}

/// From a journal of any entries that can be printed, an agent run over entries, syncs and restarts is safe in every cut of
/// every state. So is every run of entries that a provider may take, and what synced entries cause, every later cut causes too.
/// What may be entered is taken; an entry of a journal that no provider takes changes nothing.
pub fn every_agent_run_safe()
    ensures safe { (setting : Setting) (stp_of : List ℕ → Option ℕ) (stated : List Entry)
        (events : List Happening) → IsAgentRun setting stp_of stated events →
        AreSafe setting stp_of (all_synced stated) events }
    ensures of_any_entries { (setting : Setting) (stp_of : List ℕ → Option ℕ) (stated : List Entry)
        (events : List Happening) → All IsPrintableEntry stated →
        AreAllowed setting stp_of (all_synced stated) events →
        AreSafe setting stp_of (all_synced stated) events }
    ensures messages { (setting : Setting) (stp_of : List ℕ → Option ℕ) (stated : List Entry)
        (events : List Happening) → All IsPrintableEntry stated →
        AreAllowed setting stp_of (all_synced stated) events →
        StaysCaused setting stp_of (all_synced stated) events }
    ensures taken { (setting : Setting) (stp_of : List ℕ → Option ℕ) (j : Journal) (e : Entry) →
        MayEnter setting stp_of j e → may_take (replayed setting stp_of j.entries) e ≡ true }
    ensures left_out { (setting : Setting) (stp_of : List ℕ → Option ℕ)
        (front back : List Entry) (e : Entry) →
        may_take (replayed setting stp_of front) e ≡ false →
        replay setting stp_of (front ++ e ∷ back) ≡ replay setting stp_of (front ++ back) }
{}

/// Entries that are a run from what a journal makes, and a sync behind them, are events that are allowed. All is synced then,
/// and they cause the messages of those entries.
pub fn batches_are_allowed()
    ensures allowed { (setting : Setting) (stp_of : List ℕ → Option ℕ) (j : Journal)
        (es : List Entry) → IsRun setting stp_of (replayed setting stp_of j.entries) es →
        length j.entries + length es ≤ most_entries →
        AreAllowed setting stp_of j (batch j es) }
    ensures synced { (j : Journal) (es : List Entry) →
        journal_after j (batch j es) ≡ all_synced (j.entries ++ es) }
    ensures messages { (setting : Setting) (stp_of : List ℕ → Option ℕ) (j : Journal)
        (es : List Entry) → caused setting stp_of j (batch j es)
        ≡ (after_all setting stp_of (replayed setting stp_of j.entries) es).out }
{}

/// The capacities by which a provider reserves are those that the topology declares for its points. So no load passes a
/// declared capacity.
pub fn own_capacities()
    ensures own { (t : Network) (provider : ℕ) → HasItsCapacities t provider }
    ensures others { (t : Network) (provider : ℕ) → HasNoOthers t provider }
    ensures within { (t : Network) (provider : ℕ) (s : State) →
        IsCapped (setting_of t provider) s → IsWithinTopology t provider s }
{}

/// What a record books is between the points of the names in its service, from the first entry on.
pub fn own_points()
    ensures first { (stp_of : List ℕ → Option ℕ) → HavePoints stp_of blank.records }
    ensures after { (stp_of : List ℕ → Option ℕ) (setting : Setting) (s : State) (e : Entry) →
        HavePoints stp_of s.records → HavePoints stp_of (after setting stp_of s e).state.records }
{}
