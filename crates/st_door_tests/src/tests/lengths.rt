//! Doors that are asked how long their code is.

use super::host::Host;
use super::streams::shows;

#[test]
fn a_code_has_1_to_16_digits(rt: HostRuntime) {
    let rt = Host::new(rt);
    shows(
        &rt,
        b"new a 0\nnew b 0000000000\nnew c 1234567890123456\nlength a\nlength b\nlength c\n",
        "a locked buttons 0 waiting 0\n\
         b locked buttons 0 waiting 0\n\
         c locked buttons 0 waiting 0\n\
         a length 1\n\
         b length 10\n\
         c length 16\n",
        0,
    );
}

#[test]
fn a_length_is_the_same_each_time(rt: HostRuntime) {
    let rt = Host::new(rt);
    shows(
        &rt,
        b"new a 12\nlength a\nlength a\nbutton a 3\nlength a\nshow a\n",
        "a locked buttons 0 waiting 0\n\
         a length 2\n\
         a length 2\n\
         a locked buttons 1 waiting 0\n\
         a length 2\n\
         a locked buttons 1 waiting 0\n",
        0,
    );
}

#[test]
fn an_open_door_says_its_length_and_stays_open_as_long(rt: HostRuntime) {
    let rt = Host::new(rt);
    shows(
        &rt,
        b"new a 12\n\
          button a 1\n\
          button a 2\n\
          button a 1\n\
          at 9999\n\
          length a\n\
          show a\n\
          at 10000\n\
          show a\n",
        "a locked buttons 0 waiting 0\n\
         a locked buttons 1 waiting 0\n\
         a open buttons 0 waiting 0\n\
         a open buttons 0 waiting 1\n\
         at 9999 expired 0\n\
         a length 2\n\
         a open buttons 0 waiting 1\n\
         at 10000 expired 1\n\
         a locked buttons 1 waiting 0\n",
        0,
    );
}

#[test]
fn a_call_cancels_the_time_out_of_its_door_alone(rt: HostRuntime) {
    let rt = Host::new(rt);
    shows(
        &rt,
        b"new a 12\n\
          new b 12\n\
          button a 1\n\
          button b 1\n\
          length a\n\
          at 30000\n\
          show a\n\
          show b\n\
          button a 2\n",
        "a locked buttons 0 waiting 0\n\
         b locked buttons 0 waiting 0\n\
         a locked buttons 1 waiting 0\n\
         b locked buttons 1 waiting 0\n\
         a length 2\n\
         at 30000 expired 1\n\
         a locked buttons 1 waiting 0\n\
         b locked buttons 0 waiting 0\n\
         a open buttons 0 waiting 0\n",
        0,
    );
}

#[test]
fn a_refused_length_changes_nothing(rt: HostRuntime) {
    let rt = Host::new(rt);
    shows(
        &rt,
        b"new a 12\n\
          new b 12\n\
          button a 1\n\
          stop b 7\n\
          length b\n\
          length c\n\
          length\n\
          at 29999\n\
          at 30000\n\
          show a\n\
          show b\n",
        "a locked buttons 0 waiting 0\n\
         b locked buttons 0 waiting 0\n\
         a locked buttons 1 waiting 0\n\
         b stopped 7 word 0\n\
         line 5 refused 2\n\
         line 6 refused 8\n\
         line 7 malformed\n\
         at 29999 expired 0\n\
         at 30000 expired 1\n\
         a locked buttons 0 waiting 0\n\
         b stopped 7 word 0\n",
        1,
    );
}
