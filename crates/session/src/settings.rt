// The settings of a recorded session.
ghost use Rattle.std.specs.Prelude.{◌<◌, ◌≤◌, ◌≡◌, length, take, drop};
ghost use Rattle.session.specs.Format.{setting_at, settings_in};

use crate::number::bytes_at;
use congestion::settings::Settings;
use std::num::f64_from_bits_with_nan;

// The number at a position of the settings' section, behind its count.
pub(crate) fn setting(file: &[u8], position: usize) -> u64
    requires { (68 ≤ length file.now) × (position < 8) }
    ensures { result ≡ setting_at (take 64 (drop 4 file.now)) position }
{
    u64::from_be_bytes(bytes_at(file, 4 + 8 * position))
}

// The settings behind the initial number.
pub(crate) fn read_settings(file: &[u8]) -> Settings
    requires { 68 ≤ length file.now }
    ensures { result ≡ settings_in (take 64 (drop 4 file.now)) }
{
    Settings {
        target_delay: setting(file, 1),
        first_timeout: setting(file, 2),
        minimum_timeout: setting(file, 3),
        largest_packet: setting(file, 4),
        increase: setting(file, 5),
        gain: f64_from_bits_with_nan(setting(file, 6)),
        delay_window: setting(file, 7),
    }
}
