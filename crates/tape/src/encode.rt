// Writes a record to the front of an output.
ghost use Rattle.std.specs.Prelude.{◌≡◌, cond, true, ◌++◌, length, drop, is_ok, if◌then◌else◌, nat_le};
ghost use Rattle.tape.specs.declared.fault.WriteFault.TheVariants.{ShortOutput};
ghost use Rattle.tape.specs.Format.{decode, encode, width, side_byte, kind_byte};
ghost use Rattle.tape.specs.Views.{view, entered, written};

use crate::command::Command;
use crate::fault::WriteFault;
use market::{Kind, Side, Terms};

// A match leaves no side out, where a look-up in a table could miss; so with the kinds and the way back.
fn side_byte(side: Side) -> u8
    ensures { result ≡ side_byte side }
{
    match side {
        Side::Buy => 0x42,
        Side::Offer => 0x4F,
    }
}

fn kind_byte(kind: Kind) -> u8
    ensures { result ≡ kind_byte kind }
{
    match kind {
        Kind::Limit => 0x4C,
        Kind::Market => 0x4D,
    }
}

// Copies the bytes to the front of the output, if they fit.
fn put(out: &mut [u8], bytes: &[u8]) -> Result<usize, WriteFault>
    ensures value { result ≡ cond (nat_le (length bytes.now) (length out.old)) (Ok (length bytes.now)) (Err ShortOutput) }
    ensures after { out.new ≡ (if is_ok result then bytes.now ++ drop (length bytes.now) out.old else out.old) }
{
    let width = bytes.len();
    if out.len() < width {
        return Err(WriteFault::ShortOutput);
    }
    out[..width].copy_from_slice(bytes);
    Ok(width)
}

// Writes an enter command, if its account has eight bytes.
fn put_enter(out: &mut [u8], terms: &Terms<&[u8]>) -> Result<usize, WriteFault>
    ensures value { result ≡ written (entered terms.now) (length out.old) }
    ensures after { out.new ≡ (if is_ok result then encode (entered terms.now) ++ drop (width (entered terms.now)) out.old else out.old) }
    ensures back { is_ok result ≡ true → decode out.new ≡ Ok (entered terms.now) }
{
    let &[i, j, k, l, m, n, o, p] = terms.account else {
        return Err(WriteFault::AccountLength);
    };
    let side = side_byte(terms.side);
    let kind = kind_byte(terms.kind);
    let [a, b, c, d] = terms.price.to_be_bytes();
    let [e, f, g, h] = terms.quantity.to_be_bytes();
    let record = [
        0x45, side, kind, a, b, c, d, e, f, g, h, i, j, k, l, m, n, o, p,
    ];
    put(out, &record)
}

/// Writes the command's record to the front of the output and answers how many bytes it has; the
/// rest of the output stays, and a refusal writes nothing. What is written is read back as the
/// command, whatever follows it.
pub fn write(out: &mut [u8], command: &Command<'_>) -> Result<usize, WriteFault>
    ensures value { result ≡ written (view command.now) (length out.old) }
    ensures after { out.new ≡ (if is_ok result then encode (view command.now) ++ drop (width (view command.now)) out.old else out.old) }
    ensures back { is_ok result ≡ true → decode out.new ≡ Ok (view command.now) }
{
    match command {
        Command::Start { prior, last } => {
            let [a, b, c, d] = prior.to_be_bytes();
            let [e, f, g, h] = last.to_be_bytes();
            put(out, &[0x53, a, b, c, d, e, f, g, h])
        }
        Command::Enter(terms) => put_enter(out, terms),
        Command::Withdraw { number } => {
            let [a, b, c, d] = number.to_be_bytes();
            put(out, &[0x58, a, b, c, d])
        }
        Command::Amend {
            number,
            price,
            quantity,
        } => {
            let [a, b, c, d] = number.to_be_bytes();
            let [e, f, g, h] = price.to_be_bytes();
            let [i, j, k, l] = quantity.to_be_bytes();
            put(out, &[0x41, a, b, c, d, e, f, g, h, i, j, k, l])
        }
    }
}
