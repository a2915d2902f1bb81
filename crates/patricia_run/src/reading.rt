//! What a line says: a command, or what is wrong with the line.

ghost use Rattle.std.specs.Prelude.{◌≡◌, map, IfOk};
ghost use Rattle.std.specs.Result.{result_map_both};
ghost use Rattle.std.specs.Option.{option_map};
ghost use Rattle.patricia_run.specs.Machine.{with_key};
ghost use Rattle.patricia_run.specs.Text.{alone, valued, number_of, wire_words, shape_in, shape_of};
ghost use Rattle.patricia_run.specs.Text.{key_alone};
ghost use Rattle.patricia_run.specs.Text.{parse_command, parse_fields, parse_line, parse_with};
ghost use Rattle.patricia_run.specs.Internal.Words.{shape_after};
ghost use Rattle.patricia_run.specs.declared.command.Command.TheVariants as Commands;

use crate::Command;
use crate::cutting::cut;
use crate::key_format::KeyText;
use std::alloc::AllocError;

/// What is wrong with a line.
#[derive(Clone, Copy)]
pub enum Fault {
    UnknownWord,
    FieldCount,
    BadNumber,
    BadKey,
}

/// What a line says.
pub type Reading<Q> = Result<Command<Q, u64>, Fault>;

// The word that a line begins with: a command without its key and its number.
type Word = Command<(), ()>;

// The number that a field writes.
fn number(field: &[u8]) -> Option<u64>
    ensures { result ≡ number_of field.now }
{
    if field.is_empty() {
        return None;
    }
    let mut value: u64 = 0;
    for b in field {
        if !b.is_ascii_digit() {
            return None;
        }
        value = value.checked_mul(10)?.checked_add(u64::from(*b - b'0'))?;
    }
    Some(value)
}

// The word of tree bytes that a field is.
fn wire_word(field: &[u8]) -> Option<Word>
    ensures { option_map shape_after result ≡ shape_in wire_words field.now }
{
    if field == b"wire".as_slice() {
        Some(Command::Wire)
    } else if field == b"reload".as_slice() {
        Some(Command::Reload)
    } else if field == b"wide".as_slice() {
        Some(Command::Wide)
    } else if field == b"reloadwide".as_slice() {
        Some(Command::ReloadWide)
    } else {
        None
    }
}

// The word that a field is.
fn first_word(field: &[u8]) -> Option<Word>
    ensures { option_map shape_after result ≡ shape_of field.now }
{
    if field == b"insert".as_slice() {
        Some(Command::Insert((), ()))
    } else if field == b"get".as_slice() {
        Some(Command::Get(()))
    } else if field == b"remove".as_slice() {
        Some(Command::Remove(()))
    } else if field == b"len".as_slice() {
        Some(Command::Len)
    } else if field == b"list".as_slice() {
        Some(Command::List)
    } else if field == b"under".as_slice() {
        Some(Command::Under(()))
    } else if field == b"along".as_slice() {
        Some(Command::Along(()))
    } else if field == b"longest".as_slice() {
        Some(Command::Longest(()))
    } else if field == b"reach".as_slice() {
        Some(Command::Reach(()))
    } else if field == b"split".as_slice() {
        Some(Command::Split(()))
    } else if field == b"swap".as_slice() {
        Some(Command::Swap)
    } else if field == b"copy".as_slice() {
        Some(Command::Copy)
    } else if field == b"clear".as_slice() {
        Some(Command::Clear)
    } else {
        wire_word(field)
    }
}

// The key that the only field spells.
fn only_key<'a, Q: KeyText<'a>>(
    fields: &[&'a [u8]],
    buffer: &'a mut Vec<u8>,
) -> Result<Result<Q, Fault>, AllocError>
    ensures { IfOk result (λ key. result_map_both Q.key (λ fault. fault) key
        ≡ key_alone Q.key_format (map (λ f. f.now) fields.now)) }
{
    match fields {
        [field] => Ok(Q::read(field, buffer)?.ok_or(Fault::BadKey)),
        _ => Ok(Err(Fault::FieldCount)),
    }
}

// The command of a word that stands alone.
fn alone<'a, Q: KeyText<'a>>(command: Command<Q, u64>, fields: &[&'a [u8]]) -> Reading<Q>
    ensures { parse_with Q.key result
        ≡ parse_command Q.key_format (alone (with_key Q.key command))
        (map (λ f. f.now) fields.now) }
{
    if fields.is_empty() {
        Ok(command)
    } else {
        Err(Fault::FieldCount)
    }
}

// The insert of a key and a number.
fn insert<'a, Q: KeyText<'a>>(
    fields: &[&'a [u8]],
    buffer: &'a mut Vec<u8>,
) -> Result<Reading<Q>, AllocError>
    ensures { IfOk result (λ reading. parse_with Q.key reading
        ≡ parse_command Q.key_format (valued (λ key n. Commands.Insert key n))
        (map (λ f. f.now) fields.now)) }
{
    let [key, value] = fields else {
        return Ok(Err(Fault::FieldCount));
    };
    let Some(value) = number(value) else {
        return Ok(Err(Fault::BadNumber));
    };
    Ok(match Q::read(key, buffer)? {
        Some(key) => Ok(Command::Insert(key, value)),
        None => Err(Fault::BadKey),
    })
}

// The command of the fields after a word.
fn command<'a, Q: KeyText<'a>>(
    word: Word,
    fields: &[&'a [u8]],
    buffer: &'a mut Vec<u8>,
) -> Result<Reading<Q>, AllocError>
    ensures { IfOk result (λ reading. parse_with Q.key reading
        ≡ parse_command Q.key_format (shape_after word) (map (λ f. f.now) fields.now)) }
{
    Ok(match word {
        Command::Insert(..) => insert(fields, buffer)?,
        Command::Get(()) => only_key(fields, buffer)?.map(Command::Get),
        Command::Remove(()) => only_key(fields, buffer)?.map(Command::Remove),
        Command::Len => alone(Command::Len, fields),
        Command::List => alone(Command::List, fields),
        Command::Under(()) => only_key(fields, buffer)?.map(Command::Under),
        Command::Along(()) => only_key(fields, buffer)?.map(Command::Along),
        Command::Longest(()) => only_key(fields, buffer)?.map(Command::Longest),
        Command::Reach(()) => only_key(fields, buffer)?.map(Command::Reach),
        Command::Split(()) => only_key(fields, buffer)?.map(Command::Split),
        Command::Swap => alone(Command::Swap, fields),
        Command::Copy => alone(Command::Copy, fields),
        Command::Clear => alone(Command::Clear, fields),
        Command::Wire => alone(Command::Wire, fields),
        Command::Reload => alone(Command::Reload, fields),
        Command::Wide => alone(Command::Wide, fields),
        Command::ReloadWide => alone(Command::ReloadWide, fields),
    })
}

// The command of the fields of a line.
fn from_fields<'a, Q: KeyText<'a>>(
    fields: &[&'a [u8]],
    buffer: &'a mut Vec<u8>,
) -> Result<Reading<Q>, AllocError>
    ensures { IfOk result (λ reading. parse_with Q.key reading
        ≡ parse_fields Q.key_format (map (λ f. f.now) fields.now)) }
{
    let Some((first, more)) = fields.split_first() else {
        return Ok(Err(Fault::UnknownWord));
    };
    match first_word(first) {
        Some(word) => command(word, more, buffer),
        None => Ok(Err(Fault::UnknownWord)),
    }
}

/// What a line says. The buffer is for a key that is decoded. The error is out of memory.
pub fn read_line<'a, Q: KeyText<'a>>(
    line: &'a [u8],
    buffer: &'a mut Vec<u8>,
) -> Result<Reading<Q>, AllocError>
    ensures { IfOk result (λ reading. parse_with Q.key reading
        ≡ parse_line Q.key_format line.now) }
{
    let (word, more) = cut(line, b'\t');
    let Some(more) = more else {
        return from_fields(&[word], buffer);
    };
    let (key, more) = cut(more, b'\t');
    let Some(more) = more else {
        return from_fields(&[word, key], buffer);
    };
    let (value, more) = cut(more, b'\t');
    match more {
        None => from_fields(&[word, key, value], buffer),
        // no command has so many fields, whatever they hold
        Some(others) => from_fields(&[word, key, value, others], buffer),
    }
}
