//! One exchange over a link: a line is written, and one that answers it is read.
ghost use Rattle.std.specs.Prelude.{◌≡◌, ◌⊎◌, [], ◌∷◌, IfSome, IfOk, OnOk, OnErr, None};
ghost use Rattle.std.specs.Io.KnownBytes.{Appends, Consumes, Keeps, IsAtEnd};
ghost use Rattle.kb_base.specs.Faults.{HasCause, Rose};
ghost use Rattle.kb_base.specs.Stream.{Reads};
ghost use Rattle.kb_gateway.specs.Exchanges.{WritesPart, ReadsFew, HasNoAnswer};
ghost use Rattle.kb_gateway.specs.GatewayLines.{ask_line, look_line, told_line, seen_line};
ghost use Rattle.kb_gateway.specs.Private.FirstLine.{IsFirstLine};

use crate::answers::{seen_in, told_in};
use crate::order::Order;
use crate::requests::{ask_line, look_line};
use crate::told::{Seen, Told};
use arrayvec::ArrayVec;
use kb_base::Failed;
use kb_ports::{Link, send_bytes};

/// The most bytes that are read of a line, with its line feed: as many as the longest answer has.
const MAX_ANSWER: usize = 10;

/// What was read of a line.
pub type Answer = ArrayVec<u8, MAX_ANSWER>;

/// Asks for an order over a link.
pub fn ask_over<L: Link>(link: &mut L, order: &Order) -> Result<Told, Failed>
    ensures sent { OnOk result (Appends (L.written link.old) (L.written link.new) (ask_line order.now)) }
    ensures part { WritesPart (L.written link.old) (L.written link.new) (ask_line order.now) }
    ensures told { IfOk result (λ told. Consumes (L.left link.old) (L.left link.new) (told_line told)) }
    ensures few { ReadsFew (L.left link.old) (L.left link.new) }
    ensures cause { OnErr result (Rose (L.output_faults link.old) (L.output_faults link.new)
        ⊎ Rose (L.input_faults link.old) (L.input_faults link.new)
        ⊎ HasNoAnswer told_line (L.left link.old)) }
    ensures output_calm { OnOk result (L.output_faults link.new ≡ L.output_faults link.old) }
    ensures input_calm { OnOk result (L.input_faults link.new ≡ L.input_faults link.old) }
{
    let line = exchange(link, &ask_line(order))?;
    told_in(&line).ok_or(Failed)
}

/// Asks over a link what became of an order.
pub fn look_up_over<L: Link>(link: &mut L, order: &Order) -> Result<Seen, Failed>
    ensures sent { OnOk result (Appends (L.written link.old) (L.written link.new) (look_line order.now)) }
    ensures part { WritesPart (L.written link.old) (L.written link.new) (look_line order.now) }
    ensures seen { IfOk result (λ seen. Consumes (L.left link.old) (L.left link.new) (seen_line seen)) }
    ensures few { ReadsFew (L.left link.old) (L.left link.new) }
    ensures cause { OnErr result (Rose (L.output_faults link.old) (L.output_faults link.new)
        ⊎ Rose (L.input_faults link.old) (L.input_faults link.new)
        ⊎ HasNoAnswer seen_line (L.left link.old)) }
    ensures output_calm { OnOk result (L.output_faults link.new ≡ L.output_faults link.old) }
    ensures input_calm { OnOk result (L.input_faults link.new ≡ L.input_faults link.old) }
{
    let line = exchange(link, &look_line(order))?;
    seen_in(&line).ok_or(Failed)
}

/// Writes a line, and reads the one that answers it.
fn exchange<L: Link>(link: &mut L, line: &[u8]) -> Result<Answer, Failed>
    ensures sent { OnOk result (Appends (L.written link.old) (L.written link.new) line.now) }
    ensures part { WritesPart (L.written link.old) (L.written link.new) line.now }
    ensures heard { IfOk result (λ answer. Consumes (L.left link.old) (L.left link.new) answer.items) }
    ensures first { IfOk result (λ answer. IsFirstLine (L.left link.old) answer.items) }
    ensures few { ReadsFew (L.left link.old) (L.left link.new) }
    ensures cause { OnErr result (Rose (L.output_faults link.old) (L.output_faults link.new)
        ⊎ Rose (L.input_faults link.old) (L.input_faults link.new)) }
    ensures output_calm { OnOk result (L.output_faults link.new ≡ L.output_faults link.old) }
    ensures input_calm { OnOk result (L.input_faults link.new ≡ L.input_faults link.old) }
{
    send_bytes(link, line)?;
    read_line(link)
}

/// Reads the first line, or as much of it as there is or an answer may have. A fault loses what was read.
fn read_line<L: Link>(link: &mut L) -> Result<Answer, Failed>
    ensures heard { IfOk result (λ answer. Consumes (L.left link.old) (L.left link.new) answer.items) }
    ensures first { IfOk result (λ answer. IsFirstLine (L.left link.old) answer.items) }
    ensures few { ReadsFew (L.left link.old) (L.left link.new) }
    ensures cause { HasCause (L.input_faults link.old) (L.input_faults link.new) result }
    ensures calm { OnOk result (L.input_faults link.new ≡ L.input_faults link.old) }
    ensures output { L.written link.new ≡ L.written link.old }
    ensures output_calm { L.output_faults link.new ≡ L.output_faults link.old }
{
    let mut line = Answer::new();
    'bytes: while line.len() < MAX_ANSWER {
        match read_byte(link)? {
            Some(byte) => {
                line.push(byte);
                if byte == b'\n' {
                    return Ok(line);
                }
            }
            None => return Ok(line),
        }
    }
    Ok(line)
}

/// Reads the next byte; none at the end of the link.
fn read_byte<L: Link>(link: &mut L) -> Result<Option<u8>, Failed>
    ensures byte { IfOk result (λ found. IfSome found (λ byte.
        Consumes (L.left link.old) (L.left link.new) (byte ∷ []))) }
    ensures end { IfOk result (λ found. found ≡ None →
        Consumes (L.left link.old) (L.left link.new) [] × IsAtEnd (L.left link.new)) }
    ensures kept { OnErr result (Keeps (L.left link.old) (L.left link.new)) }
    ensures cause { HasCause (L.input_faults link.old) (L.input_faults link.new) result }
    ensures calm { OnOk result (L.input_faults link.new ≡ L.input_faults link.old) }
    ensures output { L.written link.new ≡ L.written link.old }
    ensures output_calm { L.output_faults link.new ≡ L.output_faults link.old }
{
    let mut bytes = [0];
    let count = link.read(&mut bytes)?;
    Ok(if count == 0 { None } else { Some(bytes[0]) })
}
