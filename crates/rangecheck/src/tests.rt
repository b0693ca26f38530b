//! How much of an input is read: no contract can say it.
use crate::read_input;
use job::load::MOST_INPUT;
use std::test::Fail;

#[test]
fn reads_one_byte_past_the_longest_input(rt: HostRuntime) -> Result<(), Fail> {
    let heap = rt.alloc();
    let bytes = [b'R'; 5000];
    assert_eq!(rt; read_input(&bytes[0..4096], heap)?.len(), MOST_INPUT);
    assert_eq!(rt; read_input(&bytes[0..4097], heap)?.len(), MOST_INPUT + 1);
    assert_eq!(rt; read_input(&bytes[0..5000], heap)?.len(), MOST_INPUT + 1);
    Ok(())
}

#[test]
fn reads_the_bytes_in_their_order(rt: HostRuntime) -> Result<(), Fail> {
    assert_eq!(rt;
        read_input(b"job".as_slice(), rt.alloc())?.as_slice(),
        b"job".as_slice()
    );
    Ok(())
}
