//! Where texts that end too early go wrong.

use spf_parse::{ParseError, parse};
use std::alloc::Global;

/// Returns whether a text goes wrong at its end, which is at this byte.
fn goes_wrong(alloc: Global, text: &[u8], at: usize) -> bool {
    parse(alloc, text).err() == Some(ParseError::Unexpected { at })
}

#[test]
fn ends_too_early_behind_each_token(rt: HostRuntime) {
    let text = "version 2 ; array a [ 2 * len + 1 ] ; fn f ( x , y ) { return x ; } main { \
            let x = - ( a [ 1 ] + f ( 2 , 3 ) ) ; while ! 0 == 0 max 3 { } \
            if x < 1 { } else { f ( ) ; } for i in 0 .. 9 { break ; } \
            spec y = { give 1 ; } predict host 2 { fill a [ 0 .. 1 ] = 1 ; fail 7 ; } \
            specfold s = 1 for k in 0 .. len predict input [ k ] { next s ; } \
            specfold ( p , q , r ) = ( ( 1 ) + 2 , 3 , 4 ) for k in 0 .. 1 \
            predict ( host 0 , ( 1 ) , 2 ) { next ( q , r , p ) ; } emit 1 ; }";
    for (at, byte) in text.bytes().enumerate() {
        if byte == b' ' {
            let front = text.as_bytes().get(..at).unwrap_or(&[]);
            assert!(rt; goes_wrong(rt.alloc(), front, at), "at {at}");
        }
    }
}
