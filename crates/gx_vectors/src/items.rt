// An item's bytes are a line `prepare G N`, `commit G N`, `finish G` or `decide G`, and N lines `<row> <table> <image>`, where
// an image is `gone` or the values with bars between, a text in single quotes with its quotes doubled. Here `/` stands between
// two of them.
use gx_ids::Mem;
use gx_msg::{ItemFault, item_bytes, read_item};
use std::alloc::Global;
use std::mem::forget;
use std::test::Fail;

const ITEMS: &str = "finish 1
/finish 0
/decide 18446744073709551615
/prepare 7 0
/commit 10 0
/prepare 1 1
1.1.1 0 0|1
/commit 12 2
2.1.1 0 gone
2.1.2 1 -7
/commit 3 1
18446744073709551615.4294967295.4294967295 255 -9223372036854775808|9223372036854775807
/prepare 9 2
0.0.0 0 'it''s'|''
4.3.2 1 ''''''|10
/commit 5 1
5.1.1 2 'gone|1
\u{e4}'
";

// `^` stands before the first byte with which no item's bytes go on, or at the end where they would have to. The places were
// counted by hand, and a reader in Python, written apart, gives the same.
const WRONG: &str = "^/^x/^Prepare 1 0
/^ finish 1
/prepare^/prepare^d 1 0
/prepare 1^
/commit^/commit ^prepared 1
/finish 1^/finish 1
^
/finish 1^ 
/finish 1^\r
/finish ^ 1
/finish ^+1
/finish ^-1
/finish 0^1
/finish 18446744073709551615^/finish 1844674407370955161^6
/finish 9999999999999999999^9
/decide 1^ 0
/decide ^x
/commit 1 0
^1/commit 1 1
^/commit 1 2
1.1.1 0 1
^/commit 1 1
1.1.1 0 1
^1.1.2 0 1
/prepare 1 1
1.1^ 0 1
/prepare 1 1
1.1.1^.1 0 1
/prepare 1 1
1.^.1 0 1
/prepare 1 1
^-1.1.1 0 1
/prepare 1 1
1.0^1.1 0 1
/prepare 1 1
1.429496729^6.1 0 1
/prepare 1 1
1.1.429496729^6 0 1
/prepare 1 1
1844674407370955161^6.1.1 0 1
/prepare 1 1
1.1.1 25^6 1
/prepare 1 1
1.1.1 ^ 0 1
/prepare 1 1
1.1.1 0^
/prepare 1 1
^
/commit 1 2
1.1.1 0 1
1.1^ 0 1
/commit 1 2
1.1.1 0 1
1.1.1^.1 0 1
/commit 1 2
1.1.1 0 1
1.^.1 0 1
/commit 1 2
1.1.1 0 1
^-1.1.1 0 1
/commit 1 2
1.1.1 0 1
1.0^1.1 0 1
/commit 1 2
1.1.1 0 1
1.429496729^6.1 0 1
/commit 1 2
1.1.1 0 1
1.1.429496729^6 0 1
/commit 1 2
1.1.1 0 1
1844674407370955161^6.1.1 0 1
/commit 1 2
1.1.1 0 1
1.1.1 25^6 1
/commit 1 2
1.1.1 0 1
1.1.1 ^ 0 1
/commit 1 2
1.1.1 0 1
1.1.1 0^
/commit 1 2
1.1.1 0 1
^
/commit 1 1
1.1.1 255 ^/commit 1 1
1.1.1 255 ^
/commit 1 1
1.1.1 255 ^|1
/commit 1 1
1.1.1 255 1|^
/commit 1 1
1.1.1 255 1|^|2
/commit 1 1
1.1.1 255 1^ |2
/commit 1 1
1.1.1 255 ^Gone
/commit 1 1
1.1.1 255 gone^/commit 1 1
1.1.1 255 gone^|1
/commit 1 1
1.1.1 255 1|^gone
/commit 1 1
1.1.1 255 ^null
/commit 1 1
1.1.1 255 -^0
/commit 1 1
1.1.1 255 -^
/commit 1 1
1.1.1 255 -^-1
/commit 1 1
1.1.1 255 0^0
/commit 1 1
1.1.1 255 1^.5
/commit 1 1
1.1.1 255 922337203685477580^8
/commit 1 1
1.1.1 255 -922337203685477580^9
/commit 1 1
1.1.1 255 'a
^/commit 1 1
1.1.1 255 'a'^b'
/commit 1 1
1.1.1 255 'a''
^/commit 1 1
1.1.1 255 'a'^ 
/commit 1 1
1.1.1 255 ^\"a\"
";

// The bytes of the item that these bytes are, or none where they are no item.
fn again(alloc: Global, bytes: &[u8]) -> Mem<Vec<u8>> {
    match read_item(alloc, bytes) {
        Ok(item) => {
            let bytes = item_bytes(alloc, &item);
            forget(item);
            bytes
        }
        Err(_) => Ok(Vec::new(alloc)),
    }
}

#[test]
fn items_are_read_and_written(rt: HostRuntime) -> Result<(), Fail> {
    for item in ITEMS.split('/') {
        let again = again(rt.alloc(), item.as_bytes())?;
        assert!(rt; again.as_slice() == item.as_bytes(), "{item}");
    }
    Ok(())
}

// The place of the fault, where the bytes are no item.
fn fault(alloc: Global, bytes: &[u8]) -> Option<u64> {
    match read_item(alloc, bytes) {
        Err(ItemFault::NotAnItem(place)) => Some(place),
        Err(_) => None,
        Ok(item) => {
            forget(item);
            None
        }
    }
}

#[test]
fn other_bytes_are_no_items(rt: HostRuntime) -> Result<(), Fail> {
    for text in WRONG.split('/') {
        let (before, behind) = text.split_once('^').unwrap_or((text, ""));
        let bytes = [before.as_bytes(), behind.as_bytes()].concat(rt.alloc())?;
        let place = fault(rt.alloc(), bytes.as_slice());
        assert!(rt; place == Some(before.len() as u64), "{text}");
    }
    Ok(())
}
