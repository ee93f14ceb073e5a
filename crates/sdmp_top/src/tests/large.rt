use super::{STEADY, answer};
use crate::Status;
use std::alloc::Global;
use std::test::Fail;
use std::thread::Threads;

// what a session of pieces writes, without the last line feed
fn written<T: Threads + Sync>(
    threads: &T,
    alloc: Global,
    pieces: &[&[u8]],
    words: &str,
) -> Result<Vec<u8>, Fail> {
    let mut session = Vec::new(alloc);
    for piece in pieces {
        session.extend_from_slice(piece)?;
    }
    let (mut text, ended) = answer(threads, alloc, &session, words, &STEADY)?;
    if ended != Status::Done {
        return Err(Fail::from("the session is refused"));
    }
    text.pop();
    Ok(text)
}

// the text of the product of two polynomials in four variables
fn multiplied<T: Threads + Sync>(
    threads: &T,
    alloc: Global,
    a: &[u8],
    b: &[u8],
    words: &str,
) -> Result<Vec<u8>, Fail> {
    written(
        threads,
        alloc,
        &[
            b"vars x y z t\nring Z\na = ",
            a,
            b"\nb = ",
            b,
            b"\nmul a b\n",
        ],
        words,
    )
}

#[test]
fn divides_into_many_terms(rt: HostRuntime) -> Result<(), Fail> {
    let session: [&[u8]; 1] = [b"vars x\nring Z\na = x^200-1\nb = x-1\ndiv a b\n"];
    let text = written(&rt, rt.alloc(), &session, "--workers 4 --places 2")?;
    assert_eq!(rt; text.len(), 1085);
    assert_eq!(rt; text.iter().filter(|byte| **byte == b'+').count(), 199);
    assert!(rt; text.starts_with(b"x^199+x^198+"));
    assert!(rt; text.ends_with(b"+x+1"));
    Ok(())
}

#[test]
fn divides_a_large_product(rt: HostRuntime) -> Result<(), Fail> {
    // the twelfth power of the sum, and that plus 1
    let sum = b"x+y+z+t+1";
    let second = multiplied(&rt, rt.alloc(), sum, sum, "")?;
    let third = multiplied(&rt, rt.alloc(), &second, sum, "")?;
    let sixth = multiplied(&rt, rt.alloc(), &third, &third, "")?;
    let a = multiplied(&rt, rt.alloc(), &sixth, &sixth, "")?;
    assert_eq!(rt; a.iter().filter(|byte| **byte == b'+').count(), 1819);
    let mut b = a.to_vec(rt.alloc())?;
    assert_eq!(rt; b.pop(), Some(b'1'));
    b.push(b'2')?;
    let product = multiplied(&rt, rt.alloc(), &a, &b, "--workers 1")?;
    assert_eq!(rt;
        product.iter().filter(|byte| **byte == b'+').count(),
        20_474
    );
    assert!(rt; product.starts_with(b"x^24+24*x^23*y+"));
    assert!(rt; product.ends_with(b"+36*t+2"));
    for words in ["--workers 3", "--workers 8"] {
        assert!(rt;
            multiplied(&rt, rt.alloc(), &a, &b, words)? == product,
            "{words}"
        );
    }
    let pieces: [&[u8]; 5] = [
        b"vars x y z t\nring Z\nc = ",
        &product,
        b"\na = ",
        &a,
        b"\ndiv c a\n",
    ];
    assert!(rt; written(&rt, rt.alloc(), &pieces, "")? == b);
    Ok(())
}

#[test]
fn runs_the_demo(rt: HostRuntime) -> Result<(), Fail> {
    // the numbers of seed 0, computed from the definition by another program
    let summary = b"seed 0\ninput 66817 bytes\nanswers 4 lines 35721324 bytes\nsum 2383921863\n";
    for words in ["--demo 0 --workers 1", "--demo 0 --workers 8"] {
        let (text, ended) = answer(&rt, rt.alloc(), b"", words, &STEADY)?;
        assert_eq!(rt; text.as_slice(), summary.as_slice(), "{words}");
        assert_eq!(rt; ended, Status::Done, "{words}");
    }
    Ok(())
}
