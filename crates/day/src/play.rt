// The acts of the night, with what the owner lends and the home display has. Made by tests/cases/make from tests/cases/day.txt;
// main.rt says what the marks mean.

pub const GUK: [u8; 16] = *b"\x00\x01\x02\x03\x04\x05\x06\x07\x08\x09\x0A\x0B\x0C\x0D\x0E\x0F";

pub const AK: [u8; 16] = *b"\xD0\xD1\xD2\xD3\xD4\xD5\xD6\xD7\xD8\xD9\xDA\xDB\xDC\xDD\xDE\xDF";

pub const DEDICATED: [u8; 16] =
    *b"\x00\x11\x22\x33\x44\x55\x66\x77\x88\x99\xAA\xBB\xCC\xDD\xEE\xFF";

pub const TITLE: [u8; 8] = *b"\x4D\x4D\x4D\x00\x00\xBC\x61\x4E";

pub const OWNER: &[u8] = b"\
    >A NIGHT AT THE PLUG OF AN ELECTRICITY METER\n\
    >\n\
    >It is 25 October 2026. At 03:00 the clock is set back to 02:00, so that 02:30 comes twice.\n\
    >\n\
    >1. The meter and its owner\n\
    >\n\
    >   register                  name              the home display\n\
    >   imported, day rate        1.0.1.8.1.255     may read it\n\
    >   imported, night rate      1.0.1.8.2.255     may read it\n\
    >   exported                  1.0.2.8.0.255     may read it\n\
    >   reactive energy           1.0.3.8.0.255     may not read it\n\
    >\n\
    >   Each quarter of an hour the meter adds a row: a record number, its clock, and the first three registers.\n\
    >   The clock ticks every five minutes from 01:45 to 03:15, and is set back by an hour on the way.\n\
    new 54504331303730323031303030303031 4D4D4D0000BC614E 5645520000000000 48414E0000000000\n\
    registers 0100010801FF:1:00:1E:0 0100010802FF:1:00:1E:0 0100020800FF:1:00:1E:0 0100030800FF:0:00:20:0\n\
    columns 0100010801FF 0100010802FF 0100020800FF\n\
    period 900\n\
    value 0100010801FF 4210377\n\
    value 0100010802FF 8120112\n\
    value 0100020800FF 1530260\n\
    value 0100030800FF 99120\n\
    tick 07EA0A19FF012D00FF800000\n\
    value 0100010802FF 8120168\n\
    value 0100020800FF 1530261\n\
    value 0100030800FF 99127\n\
    tick 07EA0A19FF013200FF800000\n\
    value 0100010802FF 8120224\n\
    value 0100020800FF 1530262\n\
    value 0100030800FF 99134\n\
    tick 07EA0A19FF013700FF800000\n\
    value 0100010802FF 8120245\n\
    value 0100020800FF 1530263\n\
    value 0100030800FF 99141\n\
    tick 07EA0A19FF020000FF800000\n\
    value 0100010802FF 8120301\n\
    value 0100020800FF 1530264\n\
    value 0100030800FF 99148\n\
    tick 07EA0A19FF020500FF800000\n\
    value 0100010802FF 8120322\n\
    value 0100020800FF 1530265\n\
    value 0100030800FF 99155\n\
    tick 07EA0A19FF020A00FF800000\n\
    value 0100010802FF 8120378\n\
    value 0100020800FF 1530266\n\
    value 0100030800FF 99162\n\
    tick 07EA0A19FF020F00FF800000\n\
    value 0100010802FF 8120399\n\
    value 0100020800FF 1530267\n\
    value 0100030800FF 99169\n\
    tick 07EA0A19FF021400FF800000\n\
    value 0100010802FF 8120455\n\
    value 0100020800FF 1530268\n\
    value 0100030800FF 99176\n\
    tick 07EA0A19FF021900FF800000\n\
    value 0100010802FF 8120511\n\
    value 0100020800FF 1530269\n\
    value 0100030800FF 99183\n\
    tick 07EA0A19FF021E00FF800000\n\
    value 0100010802FF 8120532\n\
    value 0100020800FF 1530270\n\
    value 0100030800FF 99190\n\
    tick 07EA0A19FF022300FF800000\n\
    value 0100010802FF 8120588\n\
    value 0100020800FF 1530271\n\
    value 0100030800FF 99197\n\
    tick 07EA0A19FF022800FF800000\n\
    value 0100010802FF 8120609\n\
    value 0100020800FF 1530272\n\
    value 0100030800FF 99204\n\
    tick 07EA0A19FF022D00FF800000\n\
    value 0100010802FF 8120665\n\
    value 0100020800FF 1530273\n\
    value 0100030800FF 99211\n\
    tick 07EA0A19FF023200FF800000\n\
    value 0100010802FF 8120686\n\
    value 0100020800FF 1530274\n\
    value 0100030800FF 99218\n\
    tick 07EA0A19FF023700FF800000\n\
    ";

pub const HOUR_AGAIN: &[u8] = b"\
    value 0100010802FF 8120742\n\
    value 0100020800FF 1530275\n\
    value 0100030800FF 99225\n\
    tick 07EA0A19FF020000FF800000\n\
    value 0100010802FF 8120798\n\
    value 0100020800FF 1530276\n\
    value 0100030800FF 99232\n\
    tick 07EA0A19FF020500FF800000\n\
    value 0100010802FF 8120819\n\
    value 0100020800FF 1530277\n\
    value 0100030800FF 99239\n\
    tick 07EA0A19FF020A00FF800000\n\
    value 0100010802FF 8120875\n\
    value 0100020800FF 1530278\n\
    value 0100030800FF 99246\n\
    tick 07EA0A19FF020F00FF800000\n\
    value 0100010802FF 8120896\n\
    value 0100020800FF 1530279\n\
    value 0100030800FF 99253\n\
    tick 07EA0A19FF021400FF800000\n\
    value 0100010802FF 8120952\n\
    value 0100020800FF 1530280\n\
    value 0100030800FF 99260\n\
    tick 07EA0A19FF021900FF800000\n\
    value 0100010802FF 8120973\n\
    value 0100020800FF 1530281\n\
    value 0100030800FF 99267\n\
    tick 07EA0A19FF021E00FF800000\n\
    value 0100010802FF 8121029\n\
    value 0100020800FF 1530282\n\
    value 0100030800FF 99274\n\
    tick 07EA0A19FF022300FF800000\n\
    value 0100010802FF 8121085\n\
    value 0100020800FF 1530283\n\
    value 0100030800FF 99281\n\
    tick 07EA0A19FF022800FF800000\n\
    value 0100010802FF 8121106\n\
    value 0100020800FF 1530284\n\
    value 0100030800FF 99288\n\
    tick 07EA0A19FF022D00FF800000\n\
    value 0100010802FF 8121162\n\
    value 0100020800FF 1530285\n\
    value 0100030800FF 99295\n\
    tick 07EA0A19FF023200FF800000\n\
    value 0100010802FF 8121183\n\
    value 0100020800FF 1530286\n\
    value 0100030800FF 99302\n\
    tick 07EA0A19FF023700FF800000\n\
    value 0100010802FF 8121239\n\
    value 0100020800FF 1530287\n\
    value 0100030800FF 99309\n\
    tick 07EA0A19FF030000FF800000\n\
    value 0100010802FF 8121260\n\
    value 0100020800FF 1530288\n\
    value 0100030800FF 99316\n\
    tick 07EA0A19FF030500FF800000\n\
    value 0100010802FF 8121316\n\
    value 0100020800FF 1530289\n\
    value 0100030800FF 99323\n\
    tick 07EA0A19FF030A00FF800000\n\
    value 0100010802FF 8121372\n\
    value 0100020800FF 1530290\n\
    value 0100030800FF 99330\n\
    tick 07EA0A19FF030F00FF800000\n\
    /|   All of the owner's calls are accepted.\n\
    ";

pub const HOME_DISPLAY: &[u8] = b"\
    >\n\
    >2. A home display at the plug, which has the meter's keys\n\
    >\n\
    >   An association is the agreement under which the display may read. What is sealed is encrypted and marked by\n\
    >   the keys, so that nobody without them can read it or make it. Each request also goes to a twin of the meter,\n\
    >   in which nothing is different but every value: where both answer with the same bytes, the answer tells\n\
    >   nothing of any value. This shows it for one other set of values; for all values it is proved.\n\
    >\n\
    >   asked                                          answer of the meter                             tells of values\n\
    !|503677524A323146\n\
    ?|   a link                                        |7EA007032793DF557E\n\
    %||       The home display stops here: the meter does not confirm the link.|07||A007270373D896\n\
    ?|   an association, sealed                        |7EA0740327135FAEE6E6006066A109060760857405080103A60A040848414E00000000008A0207808B0760857405080205AC0A80084B35366956616759BE340432213030000000C88C04859644927B02E23064814B8421ED8E2D9CE4B6A70D387519FC3B75A4DB9B8E2D580A7EFF6BF66CC37379897E\n\
    %|       The meter's seal is right. It sends a challenge: eight bytes that the display has to answer.|       The home display stops here: a sealed answer does not open, or is another one.|4C|28|A06F270313E289E6E7006161A109060760857405080103A203020100A305A10302010EA40A04084D4D4D0000BC614E88020780890760857405080205AA0A8008503677524A323146BE2304210800065F1F040000101503000007\n\
    ?|   entry, with the answer to the challenge       |7EA03F032713FD78E6E600CB3130000000CA4687EF5E347C0C0994D99913E4A68BB16D30887D76F3F00817D9C884EF9E831397E7FF16FD1F0273E2194C5929177E\n\
    %|       The meter has answered the display's challenge, too: each has proved that it holds the keys.|       The home display stops here: a sealed answer does not open, or is another one.|0A|CF|A038270313D50BE6E700C701C100010009111000000002C17816B15D7B7CF78EFE16D3\n\
    ?|   the rows                                      |7EA02C032713919EE6E600D01E30000000CBB6DE6918A5AFC202E4A19F388C968DD127BE2D7704ED5C3DC428FD7E\n\
    %||       The home display stops here: a sealed answer does not open.|0A|D4|A19D270313FBCCE6E700\n\
    ?|   the reactive energy                           |7EA02C032713919EE6E600D01E30000000CC087804F669F8B903646FECB26C2533881D8047DCDEC7F427A4E87F7E\n\
    %|       The sealed answer is code 3; 3 means that the display has no right to it.|       The home display stops here: a sealed answer does not open, or is another one.|0A|D4|A024270313405FE6E700C401C10103\n\
    >\n\
    >3. The rows as the home display has read them, the oldest first\n\
    >\n\
    >   record   date         time       imported, day     imported, night          exported\n\
    >   number                                rate kWh            rate kWh               kWh\n\
    *\n\
    >\n\
    >4. What of the hour from two to three? The home display asks by date\n\
    >\n\
    >   Each quarter of an hour ends with its row, so that this hour has those later than 02:00 and not later than\n\
    >   03:00. The clock showed half past two twice, and both rows are there. Record 6 is not: its quarter ended as\n\
    >   the clock was set back, so that its row bears 02:00 and belongs to the hour before.\n\
    >\n\
    >   asked                                          answer of the meter                             tells of values\n\
    ?|   the rows after 02:00, up to 03:00             |7EA05F03271319E1E6E600D05130000000CDE5CB0B2F68FA8B491981E2528105E41F77A174D14E3C17DCFCF09B4B3669CEA96EF106A58B1E629B2A6CD1950BF417DDDFAAFD2D5E761D1B6537B9EB6FE081293388B07C8710CA0439427947899E7E\n\
    %||       The home display stops here: a sealed answer does not open.|0A|D4|A1152703134D04E6E700\n\
    ";

pub const LEAVING: &[u8] = b"\
    ?|   the end of the association                    |7EA011032713EC59E6E6006203800100BD9B7E\n\
    %||       The home display stops here: the meter does not end the association.|11||A011270313E57DE6E70063038001002C0F\n\
    ?|   the end of the link                           |7EA007032753D3937E\n\
    %||       The home display stops here: the meter does not confirm the link.|07||A007270373D896\n\
    >\n\
    >   record   date         time       imported, day     imported, night          exported\n\
    >   number                                rate kWh            rate kWh               kWh\n\
    *\n\
    ";

pub const STRANGER: &[u8] = b"\
    >\n\
    >5. A stranger without keys, who has recorded every frame of the home display\n\
    >\n\
    >   Within an association each sealed request has a counter, which has to be 1 to 180 steps on from the last\n\
    >   one accepted, where 0 follows 4294967295; else the meter is silent and the association ends. The request\n\
    >   for an association is free of this: after it the display has still to answer the challenge. Each of the\n\
    >   two tables starts from the meter as the home display had left it at that point.\n\
    >\n\
    >   While the home display is still associated:\n\
    >\n\
    >   asked                                          answer of the meter                             tells of values\n\
    !|910C5EA2337BD804\n\
    ?|   the rows, sealed with keys of its own         |7EA02C032713919EE6E600D01E30000000CE8D00BA7BE7916ACB477A59527EA3F32410BA4E5F0640287E0965907E\n\
    ?|   the rows, by the recorded frame               |7EA02C032713919EE6E600D01E30000000CBB6DE6918A5AFC202E4A19F388C968DD127BE2D7704ED5C3DC428FD7E\n\
    ";

pub const STRANGER_AGAIN: &[u8] = b"\
    !|910C5EA2337BD804\n\
    >\n\
    >   After the home display has left:\n\
    >\n\
    >   asked                                          answer of the meter                             tells of values\n\
    ?|   the rows, by the recorded frame               |7EA02C032713919EE6E600D01E30000000CBB6DE6918A5AFC202E4A19F388C968DD127BE2D7704ED5C3DC428FD7E\n\
    ?|   a link, as if it were the display             |7EA007032793DF557E\n\
    ?|   the rows, unsealed                            |7EA01903271334BCE6E600C001C100070000150006FF0200CE957E\n\
    ?|   an association, sealed with keys of its own   |7EA0740327135FAEE6E6006066A109060760857405080103A60A040848414E00000000008A0207808B0760857405080205AC0A80084B35366956616759BE340432213030000000CE4C006B2EB5C43F8B1229F3052B3A838C368A9799AC1B5D64979F7896F6B234CF1222406B0A8C350D79D48199C77E\n\
    ?|   an association, by the recorded frame         |7EA0740327135FAEE6E6006066A109060760857405080103A60A040848414E00000000008A0207808B0760857405080205AC0A80084B35366956616759BE340432213030000000C88C04859644927B02E23064814B8421ED8E2D9CE4B6A70D387519FC3B75A4DB9B8E2D580A7EFF6BF66CC37379897E\n\
    ?|   entry, by the recorded frame                  |7EA03F032713FD78E6E600CB3130000000CA4687EF5E347C0C0994D99913E4A68BB16D30887D76F3F00817D9C884EF9E831397E7FF16FD1F0273E2194C5929177E\n\
    :|       The recorded entry answers the challenge that the display was sent; this time the meter was given another.||0D\n\
    ?|   the rows, by the recorded frame               |7EA02C032713919EE6E600D01E30000000CBB6DE6918A5AFC202E4A19F388C968DD127BE2D7704ED5C3DC428FD7E\n\
    ?|   the reactive energy, by the recorded frame    |7EA02C032713919EE6E600D01E30000000CC087804F669F8B903646FECB26C2533881D8047DCDEC7F427A4E87F7E\n\
    ?|   the end of the association                    |7EA011032713EC59E6E6006203800100BD9B7E\n\
    ?|   the end of the link                           |7EA007032753D3937E\n\
    >\n\
    >   A link and its end are not sealed: who holds the cable can call and hang up.\n\
    $|   No answer told the stranger anything of a value.|   An answer told the stranger something of a value.\n\
    ";
