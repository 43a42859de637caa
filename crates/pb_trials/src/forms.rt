//! Forms as refusals print them.
use pb_linear::Form;
use pb_prog::{Name, print_form};
use std::alloc::{AllocError, Global};
use std::test::Fail;

const NONE: [i64; 8] = [0; 8];

fn name(alloc: Global, bytes: &[u8]) -> Result<Name, AllocError> {
    Ok(Name::new(bytes.to_vec(alloc)?, 0))
}

#[test]
fn forms_without_blanks(rt: HostRuntime) -> Result<(), Fail> {
    let alloc = rt.alloc();
    let mut names = Vec::new(alloc);
    names.push(name(alloc, b"n")?)?;
    names.push(name(alloc, b"m")?)?;
    let zero = Form {
        constant: 0,
        whole: NONE,
        half: NONE,
        third: NONE,
        quarter: NONE,
    };
    assert_eq!(rt;
        print_form(alloc, &zero, &names)?.as_slice(),
        b"0".as_slice()
    );
    let below = Form {
        constant: -1,
        whole: [1, 0, 0, 0, 0, 0, 0, 0],
        half: NONE,
        third: NONE,
        quarter: NONE,
    };
    assert_eq!(rt;
        print_form(alloc, &below, &names)?.as_slice(),
        b"n-1".as_slice()
    );
    let turned = Form {
        constant: 5,
        whole: [-1, 2, 0, 0, 0, 0, 0, 0],
        half: NONE,
        third: NONE,
        quarter: NONE,
    };
    assert_eq!(rt;
        print_form(alloc, &turned, &names)?.as_slice(),
        b"-n+2*m+5".as_slice()
    );
    let shares = Form {
        constant: 0,
        whole: NONE,
        half: [2, -1, 0, 0, 0, 0, 0, 0],
        third: [1, 0, 0, 0, 0, 0, 0, 0],
        quarter: [0, -3, 0, 0, 0, 0, 0, 0],
    };
    assert_eq!(rt;
        print_form(alloc, &shares, &names)?.as_slice(),
        b"2*(n/2)+n/3-m/2-3*(m/4)".as_slice()
    );
    let constant = Form {
        constant: -67_108_864,
        whole: NONE,
        half: NONE,
        third: NONE,
        quarter: NONE,
    };
    assert_eq!(rt;
        print_form(alloc, &constant, &[])?.as_slice(),
        b"-67108864".as_slice()
    );
    Ok(())
}
