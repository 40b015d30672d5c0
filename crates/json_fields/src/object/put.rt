//! How keys are put to an object.

ghost use Rattle.std.specs.Prelude.{◌≡◌, ◌↔◌, true, IsTrue, OnOk, OnErr, IfOk, IfSome, Some, option_map};
ghost use Rattle.serde_json.specs.Data.{no_members};
ghost use Rattle.json_fields.specs.Fields.{id_from, name_from, capacity_from, second_from, version_from, hold_from};
ghost use Rattle.json_fields.specs.Members.{scalar_of, value_data, place_in, HasKeyAt};
ghost use Rattle.json_fields.specs.Objects.{digits, words, flag, id_scalar, time_value, directionality_scalar, IsReadBack, IsReadInEachForm};
ghost use Rattle.json_fields.specs.Plain.{is_plain_value};
ghost use Rattle.json_fields.specs.Written.{Puts, members_of};

use crate::key::Key;
use crate::member::{Member, Written};
use crate::object::JsonObject;
use crate::time_form::TimeForm;
use nsi_base::{HoldTime, Mbps, Name, Second, Text, Version};
use nsi_primitive::{Directionality, Id};
use std::alloc::{AllocError, Global};

/// No line has more keys than these, rows aside.
const MOST_KEYS: usize = 16;

/// How many of the members have keys that stand before this one.
#[tactic(auto, unfolding(crate::specs::Members::place_in))]
pub(super) fn place_in(members: &[Member], key: Key) -> usize
    ensures { result ≡ place_in key members.now }
{
    let rank = key.rank();
    let mut place = 0;
    while place < members.len() && members[place].key.rank() < rank {
        place += 1;
    }
    place
}

fn is_at(members: &[Member], place: usize, key: Key) -> bool
    ensures { IsTrue result ↔ HasKeyAt key members.now place }
{
    place < members.len() && members[place].key.rank() == key.rank()
}

impl<'a> JsonObject<'a> {
    /// An object without keys, with room for those of most lines.
    pub fn new(alloc: Global) -> Result<Self, AllocError>
        ensures { IfOk result (λ o. members_of o ≡ no_members) }
    {
        let members = Vec::with_capacity(alloc, MOST_KEYS)?;
        Ok(JsonObject { members })
    }

    /// Puts a value at a key, in the place of one that stands there.
    fn put(&mut self, key: Key, value: Written<'a>) -> Result<(), AllocError>
        requires { is_plain_value (value_data value) ≡ true }
        ensures put { OnOk result (Puts key (Some (scalar_of value.entry)) self.old self.new) }
        ensures err { OnErr result (members_of self.new ≡ members_of self.old) }
    {
        let place = place_in(&self.members, key);
        if is_at(&self.members, place, key) {
            self.members[place] = Member { key, value };
            Ok(())
        } else {
            self.members.insert(place, Member { key, value })?;
            Ok(())
        }
    }

    pub fn put_number(&mut self, key: Key, n: u64) -> Result<(), AllocError>
        ensures put { OnOk result (Puts key (Some (digits n)) self.old self.new) }
        ensures err { OnErr result (members_of self.new ≡ members_of self.old) }
    {
        self.put(key, Written::Number(n))
    }

    pub fn put_text(&mut self, key: Key, text: &'a str) -> Result<(), AllocError>
        ensures put { OnOk result (Puts key (Some (words text.now)) self.old self.new) }
        ensures err { OnErr result (members_of self.new ≡ members_of self.old) }
    {
        self.put(key, Written::Text(text))
    }

    pub fn put_flag(&mut self, key: Key, is_set: bool) -> Result<(), AllocError>
        ensures put { OnOk result (Puts key (Some (flag is_set)) self.old self.new) }
        ensures err { OnErr result (members_of self.new ≡ members_of self.old) }
    {
        self.put(key, Written::Flag(is_set))
    }

    pub fn put_id(&mut self, key: Key, id: Id) -> Result<(), AllocError>
        ensures put { OnOk result (Puts key (Some (id_scalar id)) self.old self.new) }
        ensures again { OnOk result (IsReadBack id_from (id_scalar id) id) }
        ensures err { OnErr result (members_of self.new ≡ members_of self.old) }
    {
        self.put(key, Written::Id(id.number()))
    }

    pub fn put_name(&mut self, key: Key, name: &'a Name) -> Result<(), AllocError>
        ensures put { OnOk result (Puts key (Some (words name.now)) self.old self.new) }
        ensures again { OnOk result (IsReadBack name_from (words name.now) name.now) }
        ensures err { OnErr result (members_of self.new ≡ members_of self.old) }
    {
        self.put_text(key, name.as_str())
    }

    pub fn put_capacity(&mut self, key: Key, capacity: Mbps) -> Result<(), AllocError>
        ensures put { OnOk result (Puts key (Some (digits capacity)) self.old self.new) }
        ensures again { OnOk result (IsReadBack capacity_from (digits capacity) capacity) }
        ensures err { OnErr result (members_of self.new ≡ members_of self.old) }
    {
        self.put_number(key, capacity.get())
    }

    pub fn put_second(&mut self, key: Key, second: Second) -> Result<(), AllocError>
        ensures put { OnOk result (Puts key (Some (digits second)) self.old self.new) }
        ensures again { OnOk result (IsReadBack second_from (digits second) second) }
        ensures err { OnErr result (members_of self.new ≡ members_of self.old) }
    {
        self.put_number(key, second.get())
    }

    /// Puts when a schedule starts or ends.
    #[tactic(auto, unfolding(crate::specs::Objects::time_value), using(crate::proofs::Times::in_each_form))]
    pub fn put_time(&mut self, key: Key, form: TimeForm, time: Second) -> Result<(), AllocError>
        ensures put { OnOk result (Puts key (Some (time_value form time)) self.old self.new) }
        ensures again { OnOk result (IsReadInEachForm time) }
        ensures err { OnErr result (members_of self.new ≡ members_of self.old) }
    {
        match form {
            TimeForm::Number => self.put_number(key, time.get()),
            TimeForm::DateTime => self.put(key, Written::Time(time.get())),
        }
    }

    pub fn put_version(&mut self, key: Key, version: Version) -> Result<(), AllocError>
        ensures put { OnOk result (Puts key (Some (digits version)) self.old self.new) }
        ensures again { OnOk result (IsReadBack version_from (digits version) version) }
        ensures err { OnErr result (members_of self.new ≡ members_of self.old) }
    {
        self.put_number(key, u64::from(version.get()))
    }

    pub fn put_hold(&mut self, key: Key, hold: HoldTime) -> Result<(), AllocError>
        ensures put { OnOk result (Puts key (Some (digits hold)) self.old self.new) }
        ensures again { OnOk result (IsReadBack hold_from (digits hold) hold) }
        ensures err { OnErr result (members_of self.new ≡ members_of self.old) }
    {
        self.put_number(key, u64::from(hold.get()))
    }

    pub fn put_optional_version(
        &mut self,
        key: Key,
        version: Option<Version>,
    ) -> Result<(), AllocError>
        ensures put { OnOk result (Puts key (option_map digits version) self.old self.new) }
        ensures again { OnOk result (IfSome version (λ n. IsReadBack version_from (digits n) n)) }
        ensures err { OnErr result (members_of self.new ≡ members_of self.old) }
    {
        match version {
            None => Ok(()),
            Some(version) => self.put_version(key, version),
        }
    }

    pub fn put_optional_number(&mut self, key: Key, n: Option<u64>) -> Result<(), AllocError>
        ensures put { OnOk result (Puts key (option_map digits n) self.old self.new) }
        ensures err { OnErr result (members_of self.new ≡ members_of self.old) }
    {
        match n {
            None => Ok(()),
            Some(n) => self.put_number(key, n),
        }
    }

    pub fn put_optional_capacity(
        &mut self,
        key: Key,
        capacity: Option<Mbps>,
    ) -> Result<(), AllocError>
        ensures put { OnOk result (Puts key (option_map digits capacity) self.old self.new) }
        ensures again { OnOk result (IfSome capacity (λ n. IsReadBack capacity_from (digits n) n)) }
        ensures err { OnErr result (members_of self.new ≡ members_of self.old) }
    {
        match capacity {
            None => Ok(()),
            Some(capacity) => self.put_capacity(key, capacity),
        }
    }

    pub fn put_optional_time(
        &mut self,
        key: Key,
        form: TimeForm,
        time: Option<Second>,
    ) -> Result<(), AllocError>
        ensures put { OnOk result
            (Puts key (option_map (time_value form) time) self.old self.new) }
        ensures again { OnOk result (IfSome time IsReadInEachForm) }
        ensures err { OnErr result (members_of self.new ≡ members_of self.old) }
    {
        match time {
            None => Ok(()),
            Some(time) => self.put_time(key, form, time),
        }
    }

    pub fn put_optional_id(&mut self, key: Key, id: Option<Id>) -> Result<(), AllocError>
        ensures put { OnOk result (Puts key (option_map id_scalar id) self.old self.new) }
        ensures again { OnOk result (IfSome id (λ n. IsReadBack id_from (id_scalar n) n)) }
        ensures err { OnErr result (members_of self.new ≡ members_of self.old) }
    {
        match id {
            None => Ok(()),
            Some(id) => self.put_id(key, id),
        }
    }

    pub fn put_optional_name(&mut self, key: Key, name: &'a Option<Name>) -> Result<(), AllocError>
        ensures put { OnOk result (Puts key (option_map words name.now) self.old self.new) }
        ensures again { OnOk result (IfSome name.now (λ n. IsReadBack name_from (words n) n)) }
        ensures err { OnErr result (members_of self.new ≡ members_of self.old) }
    {
        match name {
            None => Ok(()),
            Some(name) => self.put_name(key, name),
        }
    }

    pub fn put_optional_text(&mut self, key: Key, text: &'a Option<Text>) -> Result<(), AllocError>
        ensures put { OnOk result (Puts key (option_map words text.now) self.old self.new) }
        ensures err { OnErr result (members_of self.new ≡ members_of self.old) }
    {
        match text {
            None => Ok(()),
            Some(text) => self.put_text(key, text.as_str()),
        }
    }

    pub fn put_optional_flag(&mut self, key: Key, is_set: Option<bool>) -> Result<(), AllocError>
        ensures put { OnOk result (Puts key (option_map flag is_set) self.old self.new) }
        ensures err { OnErr result (members_of self.new ≡ members_of self.old) }
    {
        match is_set {
            None => Ok(()),
            Some(is_set) => self.put_flag(key, is_set),
        }
    }

    pub fn put_optional_directionality(
        &mut self,
        key: Key,
        directionality: Option<Directionality>,
    ) -> Result<(), AllocError>
        ensures put { OnOk result
            (Puts key (option_map directionality_scalar directionality) self.old self.new) }
        ensures err { OnErr result (members_of self.new ≡ members_of self.old) }
    {
        match directionality {
            None => Ok(()),
            Some(directionality) => self.put_text(key, directionality.text()),
        }
    }
}
