use crate::*;

/// Each code with its number, and whether another attempt may follow it.
#[test]
fn codes(rt: HostRuntime) {
    for (code, number, again) in [
        (ENOSERVICE, 1001, false),
        (ENOMETHOD, 1002, false),
        (EREQUEST, 1003, false),
        (ETOOMANYFAILS, 1005, false),
        (EPCHANFINISH, 1006, false),
        (EBACKUPREQUEST, 1007, false),
        (ERPCTIMEDOUT, 1008, false),
        (EFAILEDSOCKET, 1009, true),
        (EINTERNAL, 2001, false),
        (ERESPONSE, 2002, false),
        (ELOGOFF, 2003, true),
        (ELIMIT, 2004, true),
        (ECANCELED, 125, false),
        (EHOSTDOWN, 112, true),
        (ECONNREFUSED, 111, true),
        (ECONNRESET, 104, true),
        (EPIPE, 32, true),
        (0, 0, false),
        (65_535, 65_535, false),
    ] {
        assert_eq!(rt; code, number);
        assert_eq!(rt; retriable(code), again, "at {code}");
    }
}
