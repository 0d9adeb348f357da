// The texts that the program shows.
ghost use Rattle.std.specs.Prelude.{◌≡◌};
ghost use Rattle.eb_text.specs.Texts.{help_text, version_text};

// What `--help` shows.
pub fn help() -> &'static [u8]
    ensures text { result.now ≡ help_text }
{
    b"eb answers captures of Etherbone streams on a Wishbone bus.

  eb answer --ram N CAPTURE   answer the octets in the file CAPTURE on a RAM of
                              N octets, a multiple of 4 from 4 to 1048576
  eb answer DESC CAPTURE      answer them on the bus that the file DESC describes
  eb sim DESC SCRIPT          run the file SCRIPT on that bus clock by clock, and
                              show the journal
  eb sim DESC SCRIPT --wave   show the signals of each clock before it
  eb replay DESC CAPTURE..    answer each file CAPTURE as one master of that bus,
                              all of them at once, and show the replies and the
                              journal
  eb serve DESC PORT CONNECTIONS
                              serve so many connections at PORT for master 0 of
                              that bus, at the next port for master 1, and so on,
                              and show how they ended and the journal
  eb serve-udp DESC PORT DATAGRAMS
                              answer so many datagrams at PORT as master 0 of that
                              bus, and show how they ended and the journal
  eb build DESC               show the SDB tables of that bus
  eb tour DESC                show what discovery finds on that bus, read through a
                              host and a slave
  eb ls ADDRESS               show what discovery finds at ADDRESS, a host and a
                              port, as localhost:60368
  eb read ADDRESS WHERE       read the 32-bit word at WHERE there, or with
                              WHERE/1, /2, /4 or /8 one of as many octets
  eb write ADDRESS WHERE VALUE
                              write VALUE there
  eb load START N             answer N cycles, at most 100000, made from START,
                              which is below 2147483648, on a RAM of 65536 octets
  eb --help                   show this text
  eb --version                show the version

Replies and texts go to standard output. The status is 0, or with a line on
standard error: 2 usage, 3 description refused, 4 read fault, 5 write fault,
6 malformed, 7 truncated, 8 door fault, 9 a reply of the peer refused, 10 bus
error, 11 walk refused, 12 too long, 13 no memory, 14 script refused. The
endings of a replay or a server stand in its output, and the first that is not
clean gives the status, without a line.
"
}

// What `--version` shows.
pub fn version() -> &'static [u8]
    ensures text { result.now ≡ version_text }
{
    b"eb 0.1.0\n"
}
