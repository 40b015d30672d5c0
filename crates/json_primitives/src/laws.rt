//! Laws of lines and of what they say.

ghost use Rattle.std.specs.Prelude.{◌≡◌, Ok};
ghost use Rattle.nsi_primitive.specs.Ranges.{IsSpellable, IsRangedIdentity};
ghost use Rattle.nsi_primitive.specs.declared.message.Identity.{Identity};
ghost use Rattle.nsi_primitive.specs.declared.message.Message.{Message};
ghost use Rattle.nsi_primitive.specs.declared.message.Parcel.{Parcel};
ghost use Rattle.json_fields.specs.declared.time_form.TimeForm.{TimeForm};
ghost use Rattle.json_primitives.specs.Lines.{object_of};
ghost use Rattle.json_primitives.specs.Spelling.{spelling_in, spelling, parcel_spelling};

/// The line of a message or an acknowledgement is read as what it was written for, whatever type holds that.
pub fn lines_are_read_again()
    ensures messages { (m : Message) → IsSpellable m
        → object_of (spelling m) ≡ Ok (Parcel.Message m) }
    ensures in_each_form { (form : TimeForm) (m : Message) → IsSpellable m
        → object_of (spelling_in form m) ≡ Ok (Parcel.Message m) }
    ensures acks { (i : Identity) → IsRangedIdentity i
        → object_of (parcel_spelling (Parcel.Ack i)) ≡ Ok (Parcel.Ack i) }
{}
