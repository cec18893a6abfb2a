// The rows whose lines say nothing beside their counts, each with its block: data lines, of rows that have no period, and not 9900.
ghost use Rattle.std.specs.Prelude.{◌≤◌, ◌≡◌};
ghost use Rattle.layout.specs.Packed.{some_but};
ghost use Rattle.layout.specs.Rows.{row_count, blocks};
ghost use Rattle.layout.specs.Silent.{silent_block};

use super::rows::ENTRIES;

static TABLE: [Option<usize>; ENTRIES] = [
    None, // 0000
    None, // 0001
    Some(0), // 0005
    Some(0), // 0025
    Some(0), // 0030
    Some(0), // 0100
    Some(0), // 0150
    Some(0), // 0175
    Some(0), // 0200
    Some(0), // 0205
    Some(0), // 0210
    Some(0), // 0215
    Some(0), // 0400
    Some(0), // 0450
    Some(0), // 0455
    Some(0), // 0460
    Some(0), // 0465
    Some(0), // 0470
    None, // 0990
    None, // C001
    Some(1), // C020
    Some(1), // C040
    Some(1), // C300
    Some(1), // C305
    Some(1), // C310
    Some(1), // C550
    Some(1), // C560
    Some(1), // C600
    Some(1), // C605
    Some(1), // C610
    Some(1), // C615
    None, // C990
    None, // E001
    Some(2), // E003
    Some(2), // E020
    Some(2), // E025
    Some(2), // E050
    Some(2), // E055
    Some(2), // E060
    Some(2), // E065
    Some(2), // E080
    Some(2), // E085
    Some(2), // E100
    Some(2), // E105
    Some(2), // E120
    Some(2), // E140
    None, // E300
    Some(2), // E305
    Some(2), // E310
    Some(2), // E330
    Some(2), // E340
    Some(2), // E350
    Some(2), // E360
    None, // E500
    Some(2), // E520
    Some(2), // E525
    Some(2), // E540
    Some(2), // E550
    Some(2), // E560
    None, // E990
    None, // F001
    None, // F020
    Some(3), // F025
    Some(3), // F030
    Some(3), // F035
    None, // F200
    Some(3), // F205
    Some(3), // F210
    Some(3), // F215
    Some(3), // F220
    Some(3), // F225
    Some(3), // F230
    None, // F250
    Some(3), // F255
    None, // F990
    None, // G001
    None, // G020
    Some(4), // G025
    Some(4), // G030
    Some(4), // G050
    Some(4), // G400
    Some(4), // G410
    Some(4), // G420
    Some(4), // G430
    Some(4), // G440
    Some(4), // G450
    Some(4), // G460
    None, // G990
    None, // H001
    None, // H020
    Some(5), // H030
    Some(5), // H040
    Some(5), // H050
    Some(5), // H060
    None, // H990
    None, // 8001
    None, // 8020
    Some(6), // 8030
    Some(6), // 8040
    Some(6), // 8050
    None, // 8100
    Some(6), // 8110
    None, // 8160
    Some(6), // 8165
    Some(6), // 8170
    Some(6), // 8175
    Some(6), // 8180
    None, // 8300
    Some(6), // 8310
    None, // 8500
    Some(6), // 8505
    Some(6), // 8510
    Some(6), // 8515
    Some(6), // 8525
    Some(6), // 8530
    Some(6), // 8535
    Some(6), // 8540
    Some(6), // 8545
    Some(6), // 8550
    Some(6), // 8555
    Some(6), // 8560
    Some(6), // 8565
    Some(6), // 8570
    Some(6), // 8580
    Some(6), // 8585
    Some(6), // 8590
    None, // 8990
    None, // 9001
    Some(7), // 9020
    Some(7), // 9030
    Some(7), // 9040
    None, // 9900
    None, // 9990
    None, // 9999
    None, // no row
];

// The block of a row whose lines say nothing.
pub fn silent_at(r: usize) -> Option<usize>
    requires { r ≤ row_count }
    ensures { result ≡ some_but blocks (silent_block r) }
{
    TABLE[r]
}
