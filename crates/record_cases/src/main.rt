//! Records read from standard input, each behind two length bytes, and what becomes of each.
#![tactic(auto)]

use mapping::fault::{RecordFault, WriteFault};
use mapping::framed::split;
use mapping::mapping::Mapping;
use mapping::record::read;
use mapping::writer::write;
use std::io::Read;

/// A record that was written back, with its length: as the same bytes, or as others.
#[derive(Clone, Copy)]
enum Written {
    Same(usize),
    Different(usize),
}

/// Why a record is not written back.
#[derive(Clone, Copy)]
enum Fault {
    Read(RecordFault),
    Write(WriteFault),
}

impl Fault {
    /// The number of the refusal.
    fn number(self) -> u8 {
        match self {
            Fault::Read(fault) => fault.number(),
            Fault::Write(fault) => fault.number(),
        }
    }
}

impl From<RecordFault> for Fault {
    fn from(fault: RecordFault) -> Fault {
        Fault::Read(fault)
    }
}

impl From<WriteFault> for Fault {
    fn from(fault: WriteFault) -> Fault {
        Fault::Write(fault)
    }
}

/// Reads a record, and writes it back where it is accepted.
fn read_and_write(bytes: &[u8]) -> Result<Written, Fault> {
    let mut place = Mapping::new();
    read(bytes, &mut place)?;
    let mut buffer = [0xa5; 260];
    let size = write(&place, &mut buffer)?;
    if buffer.get(..size) == Some(bytes) && buffer.get(size) == Some(&0xa5) {
        Ok(Written::Same(size))
    } else {
        Ok(Written::Different(size))
    }
}

fn main(rt: HostRuntime) -> anyhow::Result<()> {
    let heap = rt.alloc();
    let mut input = Vec::new(heap);
    rt.stdin().read_to_end(&mut input)?;
    let mut rest = input.as_slice();
    while let Some((record, next)) = split(rest) {
        match read_and_write(record) {
            Ok(Written::Same(size)) => println!(rt; "accepted {size} same")?,
            Ok(Written::Different(size)) => println!(rt; "accepted {size} different")?,
            Err(fault) => println!(rt; "no {}", fault.number())?,
        }
        rest = next;
    }
    Ok(())
}

#[cfg(test)]
mod tests {
    use mapping::fault::{RecordFault, WriteFault};
    use mapping::mapping::Mapping;
    use mapping::record::read;
    use mapping::writer::write;

    // One input of degree 1, kind 3, shift 4; coefficients 1 and -2.
    const RAMP: [u8; 11] = [0x14, 0x80, 0xd0, 0, 0, 0, 1, 0xff, 0xff, 0xff, 0xfe];

    // One input of degree 0, and the coefficient 7.
    const FLAT: [u8; 7] = [0x14, 0, 0, 0, 0, 0, 7];

    #[test]
    fn a_place_is_filled_whole(rt: HostRuntime) {
        let mut used = Mapping::new();
        assert_eq!(rt; read(&RAMP, &mut used), Ok(()));
        assert_eq!(rt; used.inputs, 1);
        assert_eq!(rt; used.degrees, [1, 0, 0]);
        assert_eq!(rt; used.kind.number(), 3);
        assert_eq!(rt; used.shift, 4);
        assert_eq!(rt;
            (
                used.coefficients[0],
                used.coefficients[1],
                used.coefficients[2],
            ),
            (1, -2, 0)
        );
        assert_eq!(rt;
            (used.register().low, used.register().high),
            (-524_288, 524_272)
        );
        assert_eq!(rt; read(&FLAT, &mut used), Ok(()));
        let mut fresh = Mapping::new();
        assert_eq!(rt; read(&FLAT, &mut fresh), Ok(()));
        assert_eq!(rt; &used, &fresh);
        let second = used.coefficients[1];
        assert_eq!(rt; second, 0);
    }

    #[test]
    fn a_refusal_leaves_the_place(rt: HostRuntime) {
        let mut place = Mapping::new();
        assert_eq!(rt; read(&RAMP, &mut place), Ok(()));
        let before = place;
        assert_eq!(rt; read(&RAMP[0..10], &mut place), Err(RecordFault::Length));
        assert_eq!(rt; &place, &before);
        assert_eq!(rt;
            read(&[0x24, 0x80, 0xd0], &mut place),
            Err(RecordFault::Format)
        );
        assert_eq!(rt; &place, &before);
    }

    #[test]
    fn only_the_first_bytes_are_written(rt: HostRuntime) {
        let mut ramp = Mapping::new();
        assert_eq!(rt; read(&RAMP, &mut ramp), Ok(()));
        let mut short = [9; 10];
        assert_eq!(rt; write(&ramp, &mut short), Err(WriteFault::SmallBuffer));
        assert_eq!(rt; short, [9; 10]);
        let mut exact = [9; 11];
        assert_eq!(rt; write(&ramp, &mut exact), Ok(11));
        assert_eq!(rt; exact, RAMP);
        let mut long = [9; 13];
        assert_eq!(rt; write(&ramp, &mut long), Ok(11));
        assert_eq!(rt; &long[0..11], RAMP.as_slice());
        assert_eq!(rt; (long[11], long[12]), (9, 9));
    }
}
