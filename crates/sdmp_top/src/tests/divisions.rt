use super::{STEADY, answer};
use crate::Status;
use std::test::Fail;

#[test]
fn divides(rt: HostRuntime) -> Result<(), Fail> {
    let rows = [
        ("vars x\nring Z\na = x^3-1\nb = x-1\ndiv a b\n", "x^2+x+1\n"),
        ("vars x\nring Z\na = x^2+1\nb = x+1\ndiv a b\n", "none\n"),
        ("vars x\nring Z\na = x^2\nb = 2*x\ndiv a b\n", "none\n"),
        (
            "vars x\nring Z\na = 4*x^2-1\nb = 2*x+1\ndiv a b\n",
            "2*x-1\n",
        ),
        (
            "vars x y\nring Z\na = x^2*y+x*y^2+y^2\nb = x*y-1\nrem a b\n",
            "x+y\ny^2+x+y\n",
        ),
        (
            "vars x y z\nring Z\na = y^2\nb = x*z+y^2\nrem a b\n",
            "0\ny^2\n",
        ),
        (
            "vars x\nring mod 6\na = x^2-1\nb = x-1\nshow a\ndiv a b\n",
            "x^2+5\nx+1\n",
        ),
    ];
    for (session, text) in rows {
        let (written, ended) = answer(&rt, rt.alloc(), session.as_bytes(), "", &STEADY)?;
        assert_eq!(rt; written.as_slice(), text.as_bytes(), "{session}");
        assert_eq!(rt; ended, Status::Done, "{session}");
    }
    Ok(())
}

#[test]
fn refuses_divisions(rt: HostRuntime) -> Result<(), Fail> {
    let rows = [
        (
            "vars x\nring Z\na = x^2\nb = 2*x+1\nrem a b\n",
            "line 5: leading coefficient is no unit\n",
        ),
        (
            "vars x\nring mod 6\na = x^2\nb = 2*x+1\ndiv a b\n",
            "line 5: leading coefficient is no unit\n",
        ),
        (
            "vars x\nring Z\na = x^2\nb = 0\ndiv a b\n",
            "line 5: division by zero\n",
        ),
        (
            "vars x\nring Z\na = x^3\nb = x-1152921504606846976\nrem a b\n",
            "line 5: coefficient bound\n",
        ),
        (
            "vars x\nring Z\na = x^3\nb = x-1152921504606846976\ndiv a b\n",
            "line 5: coefficient bound\n",
        ),
        (
            "vars x\nring Z\na = 85070591730234615865843651857942052864\nb = 1\ndiv a b\n",
            "line 5: coefficient bound\n",
        ),
        (
            "vars x\nring Z\na = x\nshow a\nrem a b\nshow a\n",
            "x\nline 5: unknown name\n",
        ),
    ];
    for (session, text) in rows {
        let (written, ended) = answer(&rt, rt.alloc(), session.as_bytes(), "", &STEADY)?;
        assert_eq!(rt; written.as_slice(), text.as_bytes(), "{session}");
        assert_eq!(rt; ended, Status::Refused, "{session}");
    }
    Ok(())
}
