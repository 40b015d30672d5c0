//! Ids of connections and correlations: UUIDs of version 8 (RFC 9562, section 5.8), made from an agent and a number.

ghost use Rattle.std.specs.Prelude.{◌≡◌, ◌≢◌, ◌≤◌, ◌<◌, ◌^◌, ℕ, IfOk, IfErr, IfSome, IfNone, Some, None};
ghost use Rattle.nsi_primitive.specs.Ids.{id_of, bytes_of, from_bytes, id_from_text, id_text};

use nsi_base::{AgentNo, Text, TextFault};
use std::alloc::{AllocError, Global};
use std::marker::Model;
use uuid::Uuid;

/// A connectionId or correlationId. As a number of 128 bits it is the UUID with its high byte first.
#[derive(Clone, Copy, Debug, PartialEq, Eq, PartialOrd, Ord)]
pub struct Id {
    value: u128,
}

impl Model for Id {
    ghost use Rattle.std.specs.Prelude.{ℕ};

    ghost Value = { ℕ };

    ghost view = { λ i. i.value };

    ghost inverse = { λ n. record { value = n } };
}

impl Id {
    /// The id that is nobody's (RFC 9562, section 5.9).
    pub fn nil() -> Id
        ensures { result ≡ 0 }
    {
        Id { value: 0 }
    }

    /// The id as a number, of which the first byte of the UUID is the highest.
    pub fn number(self) -> u128
        ensures { result ≡ self }
    {
        self.value
    }
}

/// Why a text was not taken as an id.
#[derive(Clone, Copy, Debug, PartialEq, Eq)]
pub enum IdFault {
    NotAnId,
}

/// The id that an agent draws as its n-th.
pub fn id_of(agent: AgentNo, n: u64) -> Id
    requires { n < 2 ^ 62 }
    ensures { result ≡ id_of agent n }
{
    let number = u128::from(agent.get());
    Id {
        value: (number << 80) + (0x8 << 76) + (0x2 << 62) + u128::from(n),
    }
}

/// The agent that drew an id, and the how manieth it was, where an agent of this project drew it.
pub fn agent_and_n(id: Id) -> Option<(AgentNo, u64)>
    ensures drawn { IfSome result (λ p. (p.0 ≤ 63) × (p.1 < 2 ^ 62) × (id ≡ id_of p.0 p.1)) }
    ensures foreign { IfNone result ((a n : ℕ) → a ≤ 63 → n < 2 ^ 62 → id ≢ id_of a n) }
{
    let n = (id.value % (1 << 62)) as u64;
    let head = id.value / (1 << 62);
    if head % (1 << 18) != (0x8 << 14) + 0x2 {
        return None;
    }
    let number = head / (1 << 18);
    if number > 63 {
        return None;
    }
    let agent = AgentNo::new(number as u16)?;
    Some((agent, n))
}

#[tactic(auto, unfolding(crate::specs::Ids::bytes_of))]
fn uuid_of(id: Id) -> Uuid
    ensures bytes { result ≡ bytes_of id }
    ensures again { from_bytes result ≡ id }
{
    Uuid::from_u128(id.value)
}

#[tactic(auto, unfolding(crate::specs::Ids::from_bytes))]
fn from_uuid(uuid: Uuid) -> Id
    ensures { result ≡ from_bytes uuid }
{
    Id {
        value: uuid.as_u128(),
    }
}

/// Reads one of the four text forms of a UUID (RFC 9562, section 4, and the forms with `urn:uuid:`, in braces and
/// without hyphens).
pub fn read_id(text: &[u8]) -> Result<Id, IdFault>
    ensures read { IfOk result (λ id. id_from_text text.now ≡ Some id) }
    ensures refused { IfErr result (λ _. id_from_text text.now ≡ None) }
{
    match Uuid::try_parse_ascii(text) {
        Ok(uuid) => Ok(from_uuid(uuid)),
        Err(_) => Err(IdFault::NotAnId),
    }
}

/// Writes `urn:uuid:` and 36 lower-case characters.
pub fn print_id(alloc: Global, id: Id) -> Result<Text, AllocError>
    ensures spelled { IfOk result (λ text. text ≡ id_text id) }
    ensures again { IfOk result (λ text. id_from_text text ≡ Some id) }
{
    let uuid = uuid_of(id);
    let mut buffer = Uuid::encode_buffer();
    let text = uuid.urn().encode_lower(&mut buffer);
    match Text::of(alloc, text.as_bytes()) {
        Ok(text) => Ok(text),
        Err(TextFault::NotText) => unreachable!(),
        Err(TextFault::NoMemory) => Err(AllocError),
    }
}
