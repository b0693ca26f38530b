//! An enquiry by hand, from the opening to the close: a ramp from 0 to 300 that leaves an 8-bit register.
#![tactic(auto)]

use enquiry::closed::Closed;
use enquiry::enquiry::Enquiry;
use enquiry::report::Report;
use enquiry::witness::Fraction;
use forms::bernstein::Bernstein;
use forms::nested::Nested;
use forms::pair::Pair;
use mapping::mapping::Mapping;
use mapping::record::read;
use std::io;

/// One input of degree 1; coefficients 0 and 300.
const RAMP: [u8; 11] = [0x14, 0x80, 0, 0, 0, 0, 0, 0, 0, 0x01, 0x2c];

fn main(rt: HostRuntime) -> io::Result<()> {
    let mut ramp = Mapping::new();
    if let Err(fault) = read(&RAMP, &mut ramp) {
        return println!(rt; "no {}", fault.number());
    }
    let form = Pair {
        first: Bernstein,
        second: Nested,
    };
    let mut enquiry = Enquiry::open(form, ramp);
    if let Ok(count) = enquiry.halve(0, 1) {
        println!(rt; "{count} regions")?;
    }
    if let Ok((low, high)) = enquiry.probe(1, 1) {
        println!(rt; "from {low} to {high} at the corner")?;
    }
    // While it is open the enquiry does not show its witness.
    let closed = enquiry.close();
    // After the close there is no enquiry to halve.
    match closed {
        Closed::With(report, witness) => {
            let [Fraction { numerator, depth }, _, _] = witness.at;
            let Report { low, high, .. } = report;
            println!(rt; "from {low} to {high}, outside at {numerator} over 2 to the {depth}")
        }
        Closed::Without(_) => println!(rt; "no witness"),
    }
}
