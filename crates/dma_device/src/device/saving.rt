//! Saves a device, and restores it.

ghost use Rattle.std.specs.Prelude.{◌≡◌, ◌↔◌, ◌+◌, ◌≤◌, ◌++◌, true, Err, IfSome, IsNone, IsOk, IsTrue, OnOk, drop, is_some, length, nat_le};
ghost use Rattle.dma_device.specs.Device.{DeviceValue, reset_device};
ghost use Rattle.dma_device.specs.Snapshot.{IsDeviceValue, IsOfOther, device_parts, head_of, most_saved, saved_device};

use crate::device::Device;
use crate::save::head::{Head, is_of_other};
use crate::save::threads::{restore_threads, save_threads, threads_len};
use crate::save::{HEAD_LEN, RestoreFault, SUM_LEN, is_sealed, seal};

impl Device {
    /// Writes the device's save to the front of `out`, and returns its length in bytes, at most
    /// [`MAX_SAVE`](crate::save::MAX_SAVE). If `out` is shorter, it returns `None` and writes nothing.
    #[tactic(auto, using(crate::proofs::SavedDevices::own_length))]
    pub fn save(&self, out: &mut [u8]) -> Option<usize>
        ensures bytes { IfSome result (λ n. out.new ≡ saved_device self.now ++ drop n out.old) }
        ensures len { IfSome result (λ n. n ≡ length (saved_device self.now)) }
        ensures limit { length (saved_device self.now) ≤ most_saved }
        ensures room { is_some result ≡ nat_le (length (saved_device self.now)) (length out.old) }
        ensures unchanged { IsNone result → out.new ≡ out.old }
        ensures device { IsDeviceValue self.now }
    {
        let len = self.parts_len();
        if out.len() < len + SUM_LEN {
            return None;
        }
        self.write_parts(out);
        seal(out, len);
        Some(len + SUM_LEN)
    }

    // Returns the length of the device's save without its checksum.
    #[tactic(auto, using(crate::proofs::SavedDevices::device_length, crate::proofs::Sound::few_channels))]
    fn parts_len(&self) -> usize
        ensures len { result ≡ length (device_parts self.now) }
        ensures head { 40 ≤ result }
        ensures limit { result + 4 ≤ most_saved }
        ensures device { IsDeviceValue self.now }
    {
        // for the ranges of the head
        let _head = self.head().bytes();
        HEAD_LEN + threads_len(&self.threads, self.config.events)
    }

    // Writes the device's save without its checksum to the front of `out`. There must be room for it.
    fn write_parts(&self, out: &mut [u8])
        requires room { length (device_parts self.now) ≤ length out.old }
        requires head { 40 ≤ length out.old }
        ensures { out.new ≡ device_parts self.now ++ drop (length (device_parts self.now)) out.old }
    {
        let head = self.head().bytes();
        save_threads(&self.threads, &mut out[HEAD_LEN..]);
        out[..HEAD_LEN].copy_from_slice(head.as_slice());
    }

    /// Replaces the device with the saved one.
    ///
    /// The error is `OtherDevice` for bytes that begin as the save of a device of another version or configuration, and
    /// then nothing changes. It is `BadSave` if the bytes aren't the save of any device, and then the device is in its
    /// state after a reset.
    #[tactic(auto, using(crate::proofs::SavedDevices::own_identity))]
    pub fn restore(&mut self, save: &[u8]) -> Result<(), RestoreFault>
        // The bytes are the save of the restored device, which satisfies what every device does.
        ensures ok { OnOk result (save.now ≡ saved_device self.new) }
        ensures value { OnOk result (IsDeviceValue self.new) }
        ensures config { self.new.config ≡ self.old.config }
        // The save of any device of this configuration restores that device.
        ensures all { (d : DeviceValue) → IsDeviceValue d → d.config ≡ self.old.config
            → save.now ≡ saved_device d → IsOk result × (self.new ≡ d) }
        ensures cause { (result ≡ Err RestoreFault.OtherDevice)
            ↔ IsOfOther self.old.config save.now }
        ensures other { result ≡ Err RestoreFault.OtherDevice → self.new ≡ self.old }
        ensures bad { result ≡ Err RestoreFault.BadSave → self.new ≡ reset_device self.old.config }
    {
        if is_of_other(save, self.config) {
            return Err(RestoreFault::OtherDevice);
        }
        if self.restore_save(save) {
            Ok(())
        } else {
            self.reset();
            Err(RestoreFault::BadSave)
        }
    }

    // Replaces the device with the saved one, and returns whether the bytes are the save of a device of its
    // configuration. If not, its threads may have changed.
    fn restore_save(&mut self, save: &[u8]) -> bool
        ensures ok { IsTrue result → save.now ≡ saved_device self.new }
        ensures value { IsTrue result → IsDeviceValue self.new }
        ensures config { self.new.config ≡ self.old.config }
        ensures all { (d : DeviceValue) → IsDeviceValue d → d.config ≡ self.old.config
            → save.now ≡ saved_device d → (result ≡ true) × (self.new ≡ d) }
    {
        if save.len() < HEAD_LEN {
            return false;
        }
        is_sealed(save) && self.restore_parts(&save[..save.len() - SUM_LEN])
    }

    // Replaces the device with the one of these parts, and returns whether they are those of a device of its
    // configuration. If not, its threads may have changed.
    fn restore_parts(&mut self, save: &[u8]) -> bool
        ensures ok { IsTrue result → save.now ≡ device_parts self.new }
        ensures value { IsTrue result → IsDeviceValue self.new }
        ensures config { self.new.config ≡ self.old.config }
        ensures all { (d : DeviceValue) → IsDeviceValue d → d.config ≡ self.old.config
            → save.now ≡ device_parts d → (result ≡ true) × (self.new ≡ d) }
    {
        let Some(head) = Head::of_save(self.config, save) else {
            return false;
        };
        let config = self.config;
        if !restore_threads(&mut self.threads, config, &save[HEAD_LEN..]) {
            return false;
        }
        self.manager = head.manager;
        self.events = head.events;
        self.interrupts = head.interrupts;
        self.inten = head.inten;
        self.dbginst0 = head.dbginst0;
        self.dbginst1 = head.dbginst1;
        true
    }

    // Returns the head of the device's save.
    fn head(&self) -> Head
        ensures { result ≡ head_of self.now }
    {
        Head {
            config: self.config,
            manager: self.manager,
            events: self.events,
            interrupts: self.interrupts,
            inten: self.inten,
            dbginst0: self.dbginst0,
            dbginst1: self.dbginst1,
        }
    }
}
