//! Whole scripts, and what they print.

use super::host::Host;
use super::streams::shows;

#[test]
fn only_the_last_digit_opens_the_door(rt: HostRuntime) {
    let rt = Host::new(rt);
    shows(
        &rt,
        b"new a 1234\nbutton a 1\nbutton a 2\nbutton a 3\nbutton a 4\n",
        "a locked buttons 0 waiting 0\n\
         a locked buttons 1 waiting 0\n\
         a locked buttons 2 waiting 0\n\
         a locked buttons 3 waiting 0\n\
         a open buttons 0 waiting 0\n",
        0,
    );
}

#[test]
fn each_button_of_an_open_door_waits(rt: HostRuntime) {
    let rt = Host::new(rt);
    shows(
        &rt,
        b"new a 1\nbutton a 1\nbutton a 1\nbutton a 2\nshow a\n",
        "a locked buttons 0 waiting 0\n\
         a open buttons 0 waiting 0\n\
         a open buttons 0 waiting 1\n\
         a open buttons 0 waiting 2\n\
         a open buttons 0 waiting 2\n",
        0,
    );
}

#[test]
fn a_stopped_door_keeps_its_name_and_its_reason(rt: HostRuntime) {
    let rt = Host::new(rt);
    shows(
        &rt,
        b"new a 1\nnew b 1\nstop a 0000000007\nstop a 8\nnew a 1\nstop c 7\nnames\nbutton b 1\nshow a\n",
        "a locked buttons 0 waiting 0\n\
         b locked buttons 0 waiting 0\n\
         a stopped 7 word 0\n\
         line 4 refused 2\n\
         line 5 refused 7\n\
         line 6 refused 8\n\
         names a b\n\
         b open buttons 0 waiting 0\n\
         a stopped 7 word 0\n",
        1,
    );
}

#[test]
fn names_stand_in_order_of_registration(rt: HostRuntime) {
    let rt = Host::new(rt);
    shows(
        &rt,
        b"names\nnew b 1\nnew a 2\nnames\nshow b\nshow c\n",
        "names\n\
         b locked buttons 0 waiting 0\n\
         a locked buttons 0 waiting 0\n\
         names b a\n\
         b locked buttons 0 waiting 0\n\
         line 6 refused 8\n",
        1,
    );
}

#[test]
fn lines_without_words_and_comments_print_nothing(rt: HostRuntime) {
    let rt = Host::new(rt);
    shows(
        &rt,
        b"#\x00\t\xff no text\r\n\n  \r\n  # show a\n\r\n names \r\n\n#names\nnames",
        "names\nnames\n",
        0,
    );
}

#[test]
fn what_has_no_form_is_malformed(rt: HostRuntime) {
    let rt = Host::new(rt);
    shows(
        &rt,
        b"new a 1\n\
          button a +1\n\
          new a\n\
          show\ta\n\
          show \xc3\xa4\n\
          show a\xff\n\
          at\n\
          stop a +7\n\
          length a b\n\
          remove a b\n\
          show a\r\r\n\
          button a 12\n\
          show A\n\
          show 1\n\
          names a\n\
          Names\n\
          stop a\n\
          stop 7\n\
          stop a 7 7\n\
          stop a 7x\n\
          stop A 7\n\
          stop a -7\n",
        "a locked buttons 0 waiting 0\n\
         line 2 malformed\n\
         line 3 malformed\n\
         line 4 malformed\n\
         line 5 malformed\n\
         line 6 malformed\n\
         line 7 malformed\n\
         line 8 malformed\n\
         line 9 malformed\n\
         line 10 malformed\n\
         line 11 malformed\n\
         line 12 malformed\n\
         line 13 malformed\n\
         line 14 malformed\n\
         line 15 malformed\n\
         line 16 malformed\n\
         line 17 malformed\n\
         line 18 malformed\n\
         line 19 malformed\n\
         line 20 malformed\n\
         line 21 malformed\n\
         line 22 malformed\n",
        1,
    );
}

#[test]
fn a_malformed_line_changes_nothing(rt: HostRuntime) {
    let rt = Host::new(rt);
    shows(
        &rt,
        b"new a 12\nbutton a 1\nbutton a +2\nnew a 3\nbutton a 2\n",
        "a locked buttons 0 waiting 0\n\
         a locked buttons 1 waiting 0\n\
         line 3 malformed\n\
         line 4 refused 7\n\
         a open buttons 0 waiting 0\n",
        1,
    );
}
