//! Answers as text.
use crate::answers::Answers;
use base_types::{Tuple, TupleList, Value};
use std::fmt;

impl fmt::Display for Answers {
    fn fmt<W: fmt::Write>(&self, f: &mut fmt::Formatter<W>) -> fmt::Result {
        f.write_str("all")?;
        print_image(f, &self.all)?;
        f.write_str(", forward")?;
        print_image(f, &self.forward)?;
        f.write_str(", backward")?;
        print_image(f, &self.backward)
    }
}

fn print_image<W: fmt::Write>(f: &mut fmt::Formatter<W>, image: &Option<TupleList>) -> fmt::Result {
    let Some(tuples) = image else {
        return f.write_str(" none");
    };
    for tuple in tuples.as_slice() {
        print_tuple(f, tuple)?;
    }
    Ok(())
}

fn print_tuple<W: fmt::Write>(f: &mut fmt::Formatter<W>, tuple: &Tuple) -> fmt::Result {
    write!(f, " {}(", tuple.relation)?;
    for (column, value) in tuple.values.as_slice().iter().enumerate() {
        if column != 0 {
            f.write_str(" ")?;
        }
        print_value(f, value)?;
    }
    f.write_str(")")
}

fn print_value<W: fmt::Write>(f: &mut fmt::Formatter<W>, value: &Value) -> fmt::Result {
    match value {
        Value::Int(number) => write!(f, "{number}"),
        Value::Null(null) => write!(f, "n{}", null.place),
        Value::Word(word) => print_word(f, word.as_slice()),
    }
}

fn print_word<W: fmt::Write>(f: &mut fmt::Formatter<W>, bytes: &[u8]) -> fmt::Result {
    f.write_str("w")?;
    for byte in bytes {
        f.write_char(char::from(*byte))?;
    }
    Ok(())
}
