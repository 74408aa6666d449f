// What a caller in C or Rust gets: the answers of the crates below as numbers.

ghost use Rattle.std.specs.Prelude.{◌≡◌};
ghost use Rattle.ukhtvaresh.specs.Replies.{refused_reply, sheet_reply, read_reply, write_reply};
ghost use Rattle.ukhtvaresh.specs.TablesReply.{tables_reply};
ghost use Rattle.ukhtvaresh.specs.ElementsReply.{elements_reply};
ghost use Rattle.ukhtvaresh.specs.Listing.{listing_reply};
ghost use Rattle.ukhtvaresh.specs.MendReply.{mend_reply};
ghost use Rattle.ukhtvaresh.specs.Positions.{doubles_reply};
ghost use Rattle.ukhtvaresh.specs.Seconds.{second_reply};
ghost use Rattle.ukhtvaresh.specs.Horizons.{horizon_reply};
ghost use Rattle.ukhtvaresh.specs.Contacts.{contact_reply};
ghost use Rattle.ukhtvaresh.specs.Shares.{share_reply};
ghost use Rattle.ukhtvaresh.specs.Fits.{fit_reply};
ghost use Rattle.ukhtvaresh.specs.NetworkReply.{network_reply};
ghost use Rattle.ukhtvaresh.specs.Typed.{typed_reply};

use element_fits::Fits;
use horizon::Horizon;
use request_text::typed_requests::stored::NotStored;
use sheet_types::refusals::Refusal;

// What a caller gets.
#[derive(Clone, Copy)]
pub struct Reply {
    // number of the refusal, 1 to 10, of tables 11 too, of doubles 12, of a star 13, of a network 14, 15, 16, 19, of a
    // fit 17, 18, of elements from rows 21 too, of a contact 22; 0 for none
    pub number: u64,
    // length of the sheet, count of the entries or of the numbers, 0 for a fit, a network's first station; or the
    // refusal's place
    pub value: u64,
}

// What a caller gets whose file is mended.
#[derive(Clone, Copy)]
pub struct MendReply {
    // number of the refusal, 4; 0 for none
    pub number: u64,
    // bytes written into the sheets' buffer; or the refusal's place, the length needed
    pub kept: u64,
    // bytes written into the other buffer; 0 on refusal
    pub noted: u64,
}

pub fn refused(refusal: sheet_types::refusals::Refusal) -> Reply
    ensures { result ≡ refused_reply refusal }
{
    let number = refusal.number as u64;
    let value = refusal.place as u64;
    Reply { number, value }
}

pub fn sheet_reply(answer: Result<usize, Refusal>) -> Reply
    ensures { result ≡ sheet_reply answer }
{
    match answer {
        Ok(length) => {
            let value = length as u64;
            Reply { number: 0, value }
        }
        Err(refusal) => refused(refusal),
    }
}

pub fn read_reply(extent: Result<(usize, usize), Refusal>) -> Reply
    ensures { result ≡ read_reply extent }
{
    match extent {
        Ok((entries, _)) => {
            let value = entries as u64;
            Reply { number: 0, value }
        }
        Err(refusal) => refused(refusal),
    }
}

pub fn write_reply(extent: Result<(usize, usize), Refusal>) -> Reply
    ensures { result ≡ write_reply extent }
{
    match extent {
        Ok((_, length)) => {
            let value = length as u64;
            Reply { number: 0, value }
        }
        Err(refusal) => refused(refusal),
    }
}

pub fn tables_reply(answer: Result<(), Refusal>) -> Reply
    ensures { result ≡ tables_reply answer }
{
    match answer {
        Ok(()) => Reply {
            number: 0,
            value: 56,
        },
        Err(refusal) => refused(refusal),
    }
}

pub fn listing_reply(text: Result<usize, Refusal>) -> Reply
    ensures { result ≡ listing_reply text }
{
    match text {
        Ok(length) => {
            let value = length as u64;
            Reply { number: 0, value }
        }
        Err(refusal) => refused(refusal),
    }
}

pub fn mend_reply(answer: Result<(usize, usize), Refusal>) -> MendReply
    ensures { result ≡ mend_reply answer }
{
    match answer {
        Ok((kept, noted)) => {
            let bytes = kept as u64;
            let noted_bytes = noted as u64;
            MendReply {
                number: 0,
                kept: bytes,
                noted: noted_bytes,
            }
        }
        Err(refusal) => {
            let reply = refused(refusal);
            MendReply {
                number: reply.number,
                kept: reply.value,
                noted: 0,
            }
        }
    }
}

pub fn doubles_reply(answer: Result<(), Refusal>) -> Reply
    ensures { result ≡ doubles_reply answer }
{
    match answer {
        Ok(()) => Reply {
            number: 0,
            value: 23,
        },
        Err(refusal) => refused(refusal),
    }
}

// Of a second with so many numbers.
pub fn second_reply(count: u64, second: Result<shadow::Second, Refusal>) -> Reply
    ensures { result ≡ second_reply count second }
{
    match second {
        Ok(_) => Reply {
            number: 0,
            value: count,
        },
        Err(refusal) => refused(refusal),
    }
}

pub fn horizon_reply(found: Result<Horizon, Refusal>) -> Reply
    ensures { result ≡ horizon_reply found }
{
    match found {
        Ok(_) => Reply {
            number: 0,
            value: 3,
        },
        Err(refusal) => refused(refusal),
    }
}

pub fn contact_reply(found: Result<(i64, i64), Refusal>) -> Reply
    ensures { result ≡ contact_reply found }
{
    match found {
        Ok((_, _)) => Reply {
            number: 0,
            value: 2,
        },
        Err(refusal) => refused(refusal),
    }
}

pub fn share_reply(share: Result<u32, Refusal>) -> Reply
    ensures { result ≡ share_reply share }
{
    match share {
        Ok(millionths) => {
            let value = millionths as u64;
            Reply { number: 0, value }
        }
        Err(refusal) => refused(refusal),
    }
}

pub fn elements_reply(answer: Result<Fits, Refusal>) -> Reply
    ensures { result ≡ elements_reply answer }
{
    match answer {
        Ok(_) => Reply {
            number: 0,
            value: 22,
        },
        Err(refusal) => refused(refusal),
    }
}

pub fn fit_reply(answer: Result<(), Refusal>) -> Reply
    ensures { result ≡ fit_reply answer }
{
    match answer {
        Ok(()) => Reply {
            number: 0,
            value: 0,
        },
        Err(refusal) => refused(refusal),
    }
}

pub fn network_reply(answer: Result<u64, Refusal>) -> Reply
    ensures { result ≡ network_reply answer }
{
    match answer {
        Ok(station) => Reply {
            number: 0,
            value: station,
        },
        Err(refusal) => refused(refusal),
    }
}

pub fn typed_reply(stored: Result<usize, NotStored>) -> Reply
    ensures { result ≡ typed_reply stored }
{
    match stored {
        Ok(length) => {
            let value = length as u64;
            Reply { number: 0, value }
        }
        Err(NotStored::Fault(line)) => {
            let value = line as u64;
            Reply { number: 20, value }
        }
        Err(NotStored::Short(length)) => {
            let value = length as u64;
            Reply { number: 4, value }
        }
    }
}
