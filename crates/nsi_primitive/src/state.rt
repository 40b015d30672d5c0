//! The states of a connection's three machines (GFD.237, section 6), and who runs them.

ghost use Rattle.std.specs.Prelude.{◌≡◌};
ghost use Rattle.nsi_primitive.specs.States.{rsm_text, psm_text, lsm_text, rsm_named, psm_named, lsm_named, first_state, machine_text, machine_named};

const RSMS: [Rsm; 7] = [
    Rsm::ReserveStart,
    Rsm::ReserveChecking,
    Rsm::ReserveFailed,
    Rsm::ReserveHeld,
    Rsm::ReserveCommitting,
    Rsm::ReserveTimeout,
    Rsm::ReserveAborting,
];

const PSMS: [Psm; 4] = [
    Psm::Released,
    Psm::Provisioning,
    Psm::Provisioned,
    Psm::Releasing,
];

const LSMS: [Lsm; 5] = [
    Lsm::Created,
    Lsm::Failed,
    Lsm::PassedEndTime,
    Lsm::Terminating,
    Lsm::Terminated,
];

const MACHINES: [Machine; 3] = [Machine::Reserve, Machine::Provision, Machine::Lifecycle];

/// The states of the reservation machine.
#[derive(Clone, Copy, Debug, PartialEq, Eq)]
pub enum Rsm {
    ReserveStart,
    ReserveChecking,
    ReserveFailed,
    ReserveHeld,
    ReserveCommitting,
    ReserveTimeout,
    ReserveAborting,
}

impl Rsm {
    /// The name by which the state is written.
    #[tactic(auto, unfolding(crate::specs::States::rsm_text))]
    pub fn text(self) -> &'static str
        ensures { result.now ≡ rsm_text self }
    {
        match self {
            Rsm::ReserveStart => "ReserveStart",
            Rsm::ReserveChecking => "ReserveChecking",
            Rsm::ReserveFailed => "ReserveFailed",
            Rsm::ReserveHeld => "ReserveHeld",
            Rsm::ReserveCommitting => "ReserveCommitting",
            Rsm::ReserveTimeout => "ReserveTimeout",
            Rsm::ReserveAborting => "ReserveAborting",
        }
    }

    /// The state that is written so.
    #[tactic(auto, unfolding(crate::specs::States::rsm_named))]
    pub fn named(name: &[u8]) -> Option<Rsm>
        ensures { result ≡ rsm_named name.now }
    {
        first_rsm(name, &RSMS)
    }
}

#[tactic(auto, unfolding(crate::specs::States::first_state))]
fn first_rsm(name: &[u8], states: &[Rsm]) -> Option<Rsm>
    ensures { result ≡ first_state rsm_text name.now states.now }
{
    for state in states {
        if name == state.text().as_bytes() {
            return Some(*state);
        }
    }
    None
}

/// The states of the provision machine.
#[derive(Clone, Copy, Debug, PartialEq, Eq)]
pub enum Psm {
    Released,
    Provisioning,
    Provisioned,
    Releasing,
}

impl Psm {
    /// The name by which the state is written.
    #[tactic(auto, unfolding(crate::specs::States::psm_text))]
    pub fn text(self) -> &'static str
        ensures { result.now ≡ psm_text self }
    {
        match self {
            Psm::Released => "Released",
            Psm::Provisioning => "Provisioning",
            Psm::Provisioned => "Provisioned",
            Psm::Releasing => "Releasing",
        }
    }

    /// The state that is written so.
    #[tactic(auto, unfolding(crate::specs::States::psm_named))]
    pub fn named(name: &[u8]) -> Option<Psm>
        ensures { result ≡ psm_named name.now }
    {
        first_psm(name, &PSMS)
    }
}

#[tactic(auto, unfolding(crate::specs::States::first_state))]
fn first_psm(name: &[u8], states: &[Psm]) -> Option<Psm>
    ensures { result ≡ first_state psm_text name.now states.now }
{
    for state in states {
        if name == state.text().as_bytes() {
            return Some(*state);
        }
    }
    None
}

/// The states of the lifecycle machine.
#[derive(Clone, Copy, Debug, PartialEq, Eq)]
pub enum Lsm {
    Created,
    Failed,
    PassedEndTime,
    Terminating,
    Terminated,
}

impl Lsm {
    /// The name by which the state is written.
    #[tactic(auto, unfolding(crate::specs::States::lsm_text))]
    pub fn text(self) -> &'static str
        ensures { result.now ≡ lsm_text self }
    {
        match self {
            Lsm::Created => "Created",
            Lsm::Failed => "Failed",
            Lsm::PassedEndTime => "PassedEndTime",
            Lsm::Terminating => "Terminating",
            Lsm::Terminated => "Terminated",
        }
    }

    /// The state that is written so.
    #[tactic(auto, unfolding(crate::specs::States::lsm_named))]
    pub fn named(name: &[u8]) -> Option<Lsm>
        ensures { result ≡ lsm_named name.now }
    {
        first_lsm(name, &LSMS)
    }
}

#[tactic(auto, unfolding(crate::specs::States::first_state))]
fn first_lsm(name: &[u8], states: &[Lsm]) -> Option<Lsm>
    ensures { result ≡ first_state lsm_text name.now states.now }
{
    for state in states {
        if name == state.text().as_bytes() {
            return Some(*state);
        }
    }
    None
}

/// The machines of a connection, in the order in which their work is done.
#[derive(Clone, Copy, Debug, PartialEq, Eq)]
pub enum Machine {
    Reserve,
    Provision,
    Lifecycle,
}

impl Machine {
    /// The name by which the machine is written.
    #[tactic(auto, unfolding(crate::specs::States::machine_text))]
    pub fn text(self) -> &'static str
        ensures { result.now ≡ machine_text self }
    {
        match self {
            Machine::Reserve => "reserve",
            Machine::Provision => "provision",
            Machine::Lifecycle => "lifecycle",
        }
    }

    /// The machine that is written so.
    #[tactic(auto, unfolding(crate::specs::States::machine_named))]
    pub fn named(name: &[u8]) -> Option<Machine>
        ensures { result ≡ machine_named name.now }
    {
        first_machine(name, &MACHINES)
    }
}

#[tactic(auto, unfolding(crate::specs::States::first_state))]
fn first_machine(name: &[u8], machines: &[Machine]) -> Option<Machine>
    ensures { result ≡ first_state machine_text name.now machines.now }
{
    for machine in machines {
        if name == machine.text().as_bytes() {
            return Some(*machine);
        }
    }
    None
}

/// Whether an agent has ports of its own (GFD.237, the ultimate provider agent), or children that it asks.
#[derive(Clone, Copy, Debug, PartialEq, Eq)]
pub enum Side {
    Provider,
    Aggregator,
}
