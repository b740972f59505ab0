//! What the spellings of messages keep, as laws.
ghost use Rattle.std.specs.Prelude.{◌≡◌, ℕ, List, Ok, Err};
ghost use Rattle.stab_base.specs.Codec.{IsBytes};
ghost use Rattle.value_codec.specs.FirstBad.{IsFirstBad};
ghost use Rattle.value_codec.specs.Reading.{whole};
ghost use Rattle.table_model.specs.declared.message_name.MessageName.{MessageName};
ghost use Rattle.table_model.specs.declared.message.Message.{Message};
ghost use Rattle.sync_msgs.specs.Spelling.{kind_of, kind_code, body_spelling, HasSpelling};

/// Two messages of one kind and one body are the same. (Does nothing: its clause is a law.)
pub fn one_message()
    ensures { (x y : Message) → HasSpelling x → HasSpelling y → kind_of x ≡ kind_of y
        → body_spelling x ≡ body_spelling y → x ≡ y }
{}

/// The number of a kind stands for one kind. (Does nothing: its clause is a law.)
pub fn one_kind()
    ensures { (x y : MessageName) → kind_code x ≡ kind_code y → x ≡ y }
{}
